//! What a cursor keeps of the dictionaries of its file.
ghost use Rattle.std.specs.Prelude.{◌≡◌, Option, false, option_copied};
ghost use Rattle.std.specs.Rc.{rc_value};
ghost use Rattle.ipc_io.specs.Outside.{IsSize};
ghost use Rattle.ipc_files.specs.FileViews.{IsReadable, meta_view};
ghost use Rattle.ipc_files.specs.Selections.{IsMade};
ghost use Rattle.ipc_reader.specs.Kept.{is_refused, KeepsUses, ReadsHeld, TakesHeld};
ghost use Rattle.ipc_reader.specs.declared.kept.KeptDictionaries.TheVariants.{NotRead};

use arrow_spec::IpcError;
use ipc_files::{
    Dictionaries, FileMetadata, ProjectionInfo, check_columns, read_file_dictionaries,
};
use ipc_io::Source;
use std::alloc::Global;
use std::mem;

/// The dictionaries of a file: they are read at the first batch, once, or they were refused there.
#[derive(Drop)]
pub(crate) enum KeptDictionaries {
    NotRead,
    Held(Dictionaries),
    Refused,
}

impl KeptDictionaries {
    pub(crate) fn is_refused(&self) -> bool
        ensures { result ≡ is_refused self.now }
    {
        match self {
            KeptDictionaries::Refused => true,
            _ => false,
        }
    }

    /// Reads the dictionaries of the file, behind the features of the columns asked for.
    fn read<S: Source>(
        &mut self,
        alloc: Global,
        source: &mut S,
        metadata: &FileMetadata,
        projection: Option<&ProjectionInfo>,
        scratch: &mut Vec<u8>,
    ) -> Result<Dictionaries, IpcError>
        requires whole { IsSize (S.content source.old) metadata.now.size }
        requires readable { IsReadable metadata.now }
        requires made { IsMade (rc_value metadata.now.schema) (option_copied projection) }
        requires not_read { self.old ≡ NotRead }
        ensures { ReadsHeld S.content S.faults S.fetched S.references source.old source.new metadata.now (option_copied projection.entry) self.new result }
    {
        check_columns(metadata, projection)?;
        match read_file_dictionaries(alloc, source, metadata, scratch) {
            Ok(held) => Ok(held),
            Err(error) => {
                *self = KeptDictionaries::Refused;
                Err(error)
            }
        }
    }

    /// Takes the dictionaries that are held, or reads them.
    pub(crate) fn take<S: Source>(
        &mut self,
        alloc: Global,
        source: &mut S,
        metadata: &FileMetadata,
        projection: Option<&ProjectionInfo>,
        scratch: &mut Vec<u8>,
    ) -> Result<Dictionaries, IpcError>
        requires whole { IsSize (S.content source.old) metadata.now.size }
        requires readable { IsReadable metadata.now }
        requires made { IsMade (rc_value metadata.now.schema) (option_copied projection) }
        requires uses { ∥ KeepsUses (meta_view metadata.now) self.old ∥₁ }
        requires not_refused { is_refused self.old ≡ false }
        ensures { TakesHeld S.content S.faults S.fetched S.references source.old source.new metadata.now (option_copied projection.entry) self.old self.new result }
    {
        match mem::replace(self, KeptDictionaries::NotRead) {
            KeptDictionaries::Held(held) => Ok(held),
            _ => self.read(alloc, source, metadata, projection, scratch),
        }
    }
}
