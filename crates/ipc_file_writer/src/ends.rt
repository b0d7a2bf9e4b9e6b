//! What stands in a file before its first message and behind its last (Arrow Columnar Format, "IPC File Format").
ghost use Rattle.std.specs.Prelude.{◌≡◌, ◌<◌, ◌^◌, IfOk, length, true};
ghost use Rattle.arrow_types.specs.Schemas.{fields_in};
ghost use Rattle.ipc_fields.specs.IpcFields.{fields_with, ids_of};
ghost use Rattle.ipc_messages.specs.Schemas.{GivesText, StartMayBeWritten};
ghost use Rattle.laws_files.specs.Files.{file_end};
ghost use Rattle.ipc_file_writer.specs.Calls.{ending_of, start_of};
ghost use Rattle.ipc_file_writer.specs.Ends.{file_start, no_pairs};
ghost use Rattle.ipc_file_writer.specs.Written.{EndsFile, own_fields};

use crate::file::FileCore;
use crate::footer::footer_bytes;
use crate::pairs::are_pairs;
use crate::placing::LAST_PLACE;
use arrow_spec::IpcError;
use arrow_types::ArrowSchema;
use ipc_messages::{IpcSchema, StreamPairs, WriteOptions, lent, schema_text, serialize_schema};
use laws_files::ended_front_means_its_table;
use std::alloc::{AllocError, Global};

/// `ARROW1` and two zeros.
const FRONT: [u8; 8] = [65, 82, 82, 79, 87, 49, 0, 0];

/// The end mark: a prefix of length 0.
const END_MARK: [u8; 8] = [255, 255, 255, 255, 0, 0, 0, 0];

/// `ARROW1`.
const MAGIC: [u8; 6] = [65, 82, 82, 79, 87, 49];

/// The most bytes of a footer.
const MOST_FOOTER: usize = 0x7fff_ffff;

/// How many bytes stand behind the last message, those of the footer aside.
const AROUND_FOOTER: u128 = 18;

/// What stands before a file's first message.
fn file_start(
    alloc: Global,
    schema: &ArrowSchema,
    ipc_schema: &IpcSchema,
    options: &WriteOptions,
) -> Result<Vec<u8>, IpcError>
    requires { ipc_schema.now.is_little_endian ≡ true }
    ensures gives { GivesText result (file_start options.now (fields_in schema.now) (ids_of ipc_schema.now.fields.items)) }
    ensures may { IfOk result (λ _. StartMayBeWritten (fields_with (fields_in schema.now) (ids_of ipc_schema.now.fields.items)) no_pairs) }
{
    let pairs = StreamPairs {
        schema: None,
        message: None,
    };
    let message = schema_text(alloc, schema, ipc_schema, &pairs, options)?;
    let mut bytes = Vec::new(alloc);
    bytes.extend_from_slice(&FRONT)?;
    bytes.extend_from_slice(message.as_slice())?;
    Ok(bytes)
}

/// What stands behind a file's last message, with the bytes of its footer.
fn around(alloc: Global, footer: &[u8]) -> Result<Vec<u8>, AllocError>
    requires { length footer.now < 2 ^ 31 }
    ensures { IfOk result (λ v. v.items ≡ file_end footer.now) }
{
    let mut bytes = Vec::new(alloc);
    bytes.extend_from_slice(&END_MARK)?;
    bytes.extend_from_slice(footer)?;
    bytes.extend_from_slice(&(footer.len() as u32).to_le_bytes())?;
    bytes.extend_from_slice(&MAGIC)?;
    Ok(bytes)
}

impl FileCore {
    /// What stands before the file's first message.
    pub(crate) fn beginning(&self) -> Result<Vec<u8>, IpcError>
        ensures gives { GivesText result (start_of self.now) }
        ensures may { IfOk result (λ _. StartMayBeWritten (own_fields self.now) no_pairs) }
    {
        file_start(self.alloc, &self.schema, &self.ipc_schema, &self.options)
    }

    /// What stands behind the file's last message.
    pub(crate) fn ending(&self) -> Result<Vec<u8>, IpcError>
        ensures gives { GivesText result (ending_of self.now) }
        ensures means { IfOk result (λ v. EndsFile self.now v.items) }
    {
        ended_front_means_its_table();
        let fields = self.ipc_schema.fields.as_slice();
        let own = lent(&self.pairs.schema);
        let schema = serialize_schema(self.alloc, &self.schema, fields, own)?;
        let pairs = lent(&self.pairs.footer);
        are_pairs(own);
        are_pairs(pairs);
        let footer = footer_bytes(self.alloc, schema, pairs, &self.blocks)?;
        if footer.len() > self.options.metadata_limit.min(MOST_FOOTER) {
            return Err(IpcError::TooLarge);
        }
        if self.blocks.end as u128 + footer.len() as u128 + AROUND_FOOTER > LAST_PLACE {
            return Err(IpcError::TooLarge);
        }
        Ok(around(self.alloc, footer.as_slice())?)
    }
}
