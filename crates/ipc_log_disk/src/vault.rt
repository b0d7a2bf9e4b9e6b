//! Vaults of a shelf: what stands under a name, as a disk that says what a crash may leave.
ghost use Rattle.std.specs.Prelude.{◌≡◌, IfOk};
ghost use Rattle.ipc_io.specs.Outside.{IsHeld, Lacks, OpenHasCause, Closes};
ghost use Rattle.ipc_disk.specs.Places.{HasName, IsReplaced};
ghost use Rattle.ipc_log_disk.specs.Crashes.{Images, Only, SameImages};

use crate::LogDisk;
use ipc_disk::PlaceShelf;
use ipc_io::ShelfError;

/// A shelf whose bytes may be changed so that a crash leaves them whole.
///
/// While a vault is open, what stands on the shelf stays as it was. What stands there counts as synced: a vault that is opened has no image but its bytes.
pub trait VaultShelf: PlaceShelf {
    /// The bytes under a name, as they are read, written and synced.
    type Vault: LogDisk;

    /// What a crash might have left of the vault that was closed last, at some moment from its opening on.
    ghost left: { Self → Images };

    /// Opens what stands under a name. It is to be closed by `close_vault`.
    fn open_vault(&mut self, name: &str) -> Result<Self::Vault, ShelfError>
        ensures vault { IfOk result (λ v. IsHeld (Self.held self.old) name.now (Self.Vault.content v)) }
        ensures no_faults { IfOk result (λ v. Self.Vault.faults v ≡ 0) }
        ensures none_fetched { IfOk result (λ v. Self.Vault.fetched v ≡ 0) }
        ensures no_wants { IfOk result (λ v. Self.Vault.wants v ≡ 0) }
        ensures fresh { IfOk result (λ v. Self.Vault.moment v ≡ 0) }
        ensures synced { IfOk result (λ v. Only (Self.Vault.content v) (Self.Vault.images v)) }
        ensures left { SameImages (left self.old) (left self.new) }
        ensures unknown { result ≡ Err ShelfError.Unknown → Lacks (Self.held self.old) name.now }
        ensures held { Self.held self.new ≡ Self.held self.old }
        ensures cause { OpenHasCause (Self.faults self.old) (Self.faults self.new) result };

    /// Closes a vault, under the name that it was opened by.
    fn close_vault(&mut self, name: &str, vault: Self::Vault)
        requires name { HasName (Self.held self.old) name.now }
        ensures held { IsReplaced (Self.held self.old) (Self.held self.new) name.now (Self.Vault.content vault) }
        ensures left { SameImages (Self.Vault.images_since vault 0) (left self.new) }
        ensures cause { Closes (Self.Vault.faults vault) (Self.faults self.old) (Self.faults self.new) };
}
