//! Places of a shelf: what stands under a name, as a disk.
ghost use Rattle.std.specs.Prelude.{◌≡◌, IfOk};
ghost use Rattle.ipc_io.specs.Outside.{IsHeld, Lacks, OpenHasCause, Closes};
ghost use Rattle.ipc_disk.specs.Places.{HasName, IsReplaced};

use crate::Disk;
use ipc_io::{Shelf, ShelfError};

/// A shelf whose bytes may be changed.
///
/// While a place is open, what stands on the shelf stays as it was.
pub trait PlaceShelf: Shelf {
    /// The bytes under a name, as they are read and written.
    type Place: Disk;

    /// Opens what stands under a name. It is to be closed by `close_place`.
    fn open_place(&mut self, name: &str) -> Result<Self::Place, ShelfError>
        ensures place { IfOk result (λ p. IsHeld (Self.held self.old) name.now (Self.Place.content p)) }
        ensures no_faults { IfOk result (λ p. Self.Place.faults p ≡ 0) }
        ensures none_fetched { IfOk result (λ p. Self.Place.fetched p ≡ 0) }
        ensures no_wants { IfOk result (λ p. Self.Place.wants p ≡ 0) }
        ensures unknown { result ≡ Err ShelfError.Unknown → Lacks (Self.held self.old) name.now }
        ensures held { Self.held self.new ≡ Self.held self.old }
        ensures cause { OpenHasCause (Self.faults self.old) (Self.faults self.new) result };

    /// Closes a place, under the name that it was opened by.
    fn close_place(&mut self, name: &str, place: Self::Place)
        requires name { HasName (Self.held self.old) name.now }
        ensures held { IsReplaced (Self.held self.old) (Self.held self.new) name.now (Self.Place.content place) }
        ensures cause { Closes (Self.Place.faults place) (Self.faults self.old) (Self.faults self.new) };
}
