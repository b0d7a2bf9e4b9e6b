//! What a call that takes an object answers where it refuses.
use arrow_spec::IpcError;

/// A refusal, with the object that the call had taken.
#[derive(Drop)]
pub struct Refused<T> {
    /// Why.
    pub error: IpcError,
    /// The object, which is handed back.
    pub object: T,
}

impl<T: Drop> From<Refused<T>> for IpcError {
    ghost use Rattle.std.specs.Prelude.{◌≡◌};

    ghost from_gives = { λ refused e. e ≡ refused.error };

    fn from(refused: Refused<T>) -> IpcError {
        refused.error
    }
}
