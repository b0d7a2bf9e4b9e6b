//! A file that was begun before and goes on.
ghost use Rattle.std.specs.Prelude.{◌≡◌, ◌<◌, ◌≤◌, ◌^◌, All, IfErr, IfOk, length};
ghost use Rattle.arrow_spec.specs.declared.error.IpcError.TheVariants.{Memory};
ghost use Rattle.ipc_fields.specs.IpcFields.{metadata_of};
ghost use Rattle.ipc_messages.specs.Below.{IsNatural};
ghost use Rattle.ipc_file_writer.specs.Begun.{GoesOn, MayEnd};

use crate::blocks::FileBlocks;
use crate::calls::PIECE_BYTES;
use crate::file::FileCore;
use crate::pairs::FilePairs;
use arrow_arrays::Array;
use arrow_spec::{Block, IpcError};
use arrow_types::{ArrowSchemaRef, Metadata};
use ipc_fields::IpcField;
use ipc_messages::{DictionaryTracker, IpcSchema, WriteOptions, WriterState};
use std::alloc::Global;
use std::collections::BTreeMap;

/// A file that was begun before: its schema with its IPC fields, the pairs of its schema and those of its footer, the parts of its
/// dictionaries, and the blocks of its messages.
#[derive(Drop)]
pub struct BegunFile {
    /// The schema.
    pub schema: ArrowSchemaRef,
    /// An IPC field for each field, with the ids of its dictionaries.
    pub ipc_fields: Vec<IpcField>,
    /// The schema's pairs, where it has any.
    pub custom_schema_metadata: Option<Metadata>,
    /// The footer's own pairs, where it has any.
    pub custom_metadata: Option<Metadata>,
    /// The parts that the file has of each dictionary, by its id, in order.
    pub dictionaries: BTreeMap<i64, Vec<Array>>,
    /// The blocks of dictionary batches, in order.
    pub dictionary_blocks: Vec<Block>,
    /// The blocks of record batches, in order.
    pub record_blocks: Vec<Block>,
}

impl FileCore {
    /// A writer of a file that was begun before, and that goes on at a place. What the file has of dictionaries it does not send
    /// again. It takes 65,536 bytes.
    ///
    /// # Errors
    ///
    /// `Memory`.
    pub fn of_begun(
        alloc: Global,
        file: BegunFile,
        end: u64,
        options: WriteOptions,
    ) -> Result<FileCore, IpcError>
        requires dictionaries { All IsNatural file.dictionary_blocks.items }
        requires records { All IsNatural file.record_blocks.items }
        requires few { length (metadata_of file.custom_metadata) ≤ 1048576 }
        requires place { end < 2 ^ 63 }
        ensures goes_on { IfOk result (λ c. GoesOn options file end c) }
        ensures err { IfErr result (λ e. e ≡ Memory) }
    {
        let scratch = vec![in alloc; 0; PIECE_BYTES]?;
        let blocks = FileBlocks {
            dictionaries: file.dictionary_blocks,
            records: file.record_blocks,
            end,
        };
        Ok(FileCore {
            options,
            state: WriterState::Started,
            schema: file.schema,
            ipc_schema: IpcSchema {
                fields: file.ipc_fields,
                is_little_endian: true,
            },
            pairs: FilePairs {
                schema: file.custom_schema_metadata,
                footer: file.custom_metadata,
            },
            tracker: DictionaryTracker {
                dictionaries: file.dictionaries,
                cannot_replace: true,
                deltas: options.deltas,
            },
            blocks,
            has_written: false,
            scratch,
            alloc,
        })
    }

    /// Refuses a file that `finish` would refuse to end as it stands.
    ///
    /// # Errors
    ///
    /// As of `finish`, but for `State`.
    pub fn check_end(&self) -> Result<(), IpcError>
        ensures { MayEnd result self.now }
    {
        let _ = self.ending()?;
        Ok(())
    }
}
