//! What is read of the columns of a stream.
ghost use Rattle.std.specs.Prelude.{◌≡◌, [], true, length, map, IfOk, IfErr};
ghost use Rattle.std.specs.Rc.{rc_value};
ghost use Rattle.arrow_spec.specs.Arrays.{Dictionaries as History};
ghost use Rattle.arrow_spec.specs.Counts.{magnitude};
ghost use Rattle.arrow_spec.specs.Features.{chosen_floats};
ghost use Rattle.arrow_spec.specs.Files.{dictionary_of};
ghost use Rattle.arrow_spec.specs.Readings.{Gives};
ghost use Rattle.arrow_spec.specs.Streams.{Reader};
ghost use Rattle.arrow_arrays.specs.Parts.{kind_in};
ghost use Rattle.ipc_fields.specs.Causes.{IsOfBytes};
ghost use Rattle.ipc_files.specs.Below.{dictionary_message_of, kinds_of, table_of, AddsDictionary, AreAsked, held_in, Answers, IsRefusal, HoldsCells, chosen, columns_of};
ghost use Rattle.ipc_files.specs.BelowViews.{message_of};
ghost use Rattle.ipc_files.specs.Selections.{HasFields, numbers_read};
ghost use Rattle.ipc_streams.specs.Arrays.{arrays_read, held_behind};
ghost use Rattle.ipc_streams.specs.Readers.{IsReader, IsRising, ReadsRising, batch_read, fields_shown};
ghost use Rattle.ipc_streams.specs.Starts.{HoldsValues, stream_schema};

use crate::body::HeldBody;
use crate::columns::StreamColumns;
use arrow_arrays::RecordBatch;
use arrow_spec::IpcError;
use arrow_types::ArrowSchemaRef;
use ipc_files::{
    Dictionaries, DictionaryMessage, RecordMessage, apply_projection, check_kinds,
    read_dictionary_batch, read_record_batch,
};
use std::alloc::Global;

impl StreamColumns {
    /// The schema of the columns, in the order asked.
    pub(crate) fn schema(&self) -> &ArrowSchemaRef
        ensures { rc_value result.now ≡ fields_shown self.now }
    {
        match &self.projection {
            None => &self.metadata.schema,
            Some(projection) => &projection.schema,
        }
    }

    /// The numbers that are read, which rise, or all.
    fn numbers(&self) -> Option<&[usize]>
        ensures { columns_of result ≡ numbers_read self.now.projection }
    {
        match &self.projection {
            None => None,
            Some(projection) => Some(projection.columns.as_slice()),
        }
    }

    /// Refuses columns that are never read.
    pub(crate) fn check(&self) -> Result<(), IpcError>
        ensures exact { (s : Reader) → IsReader self.now s → Answers (λ u. u) result (chosen_floats s.columns s.schema.fields 0) tt }
        ensures cause { IfErr result IsRefusal }
    {
        check_kinds(&self.metadata.schema, self.numbers())
    }

    /// The columns that are read, in the schema's order.
    fn read_rising(
        &self,
        alloc: Global,
        message: &RecordMessage,
        dictionaries: &Dictionaries,
        body: HeldBody,
        scratch: &mut Vec<u8>,
    ) -> Result<RecordBatch, IpcError>
        requires values { HoldsValues (stream_schema self.now.metadata) (held_in dictionaries.now) }
        ensures gives { (s : Reader) (d : History) → IsRising self.now s → HoldsCells d (held_in dictionaries.now) → chosen_floats s.columns s.schema.fields 0 ≡ [] → ReadsRising s d (held_in dictionaries.now) (message_of message.now) body.bytes.items result }
        ensures schema { IfOk result (λ x. x.schema ≡ chosen (numbers_read self.now.projection) 0 (rc_value self.now.metadata.schema)) }
        ensures kinds { IfOk result (λ x. map kind_in x.arrays ≡ chosen (numbers_read self.now.projection) 0 (kinds_of (rc_value self.now.metadata.schema))) }
        ensures plain { IfOk result (λ x. x.custom ≡ []) }
        ensures height { IfOk result (λ x. x.height ≡ magnitude (message_of message.now).tables.length) }
        ensures cause { IfErr result IsOfBytes }
    {
        let place = body.place();
        let mut source = body;
        read_record_batch(
            alloc,
            &message.header,
            &self.metadata.schema,
            &self.metadata.ipc_schema,
            self.numbers(),
            None,
            dictionaries,
            message.version,
            &mut source,
            place,
            place.length,
            scratch,
        )
    }

    /// The record batch of a message, in the order asked, without its pairs.
    pub(crate) fn read_batch(
        &self,
        alloc: Global,
        message: &RecordMessage,
        dictionaries: &Dictionaries,
        body: HeldBody,
        scratch: &mut Vec<u8>,
    ) -> Result<RecordBatch, IpcError>
        requires values { HoldsValues (stream_schema self.now.metadata) (held_in dictionaries.now) }
        ensures gives { (s : Reader) (d : History) → IsReader self.now s → HoldsCells d (held_in dictionaries.now) → chosen_floats s.columns s.schema.fields 0 ≡ [] → Gives table_of result (batch_read s d message.now.version [] (message_of message.now).tables body.bytes.items) }
        ensures schema { (s : Reader) → IsReader self.now s → IfOk result (λ x. HasFields x (fields_shown self.now)) }

        // Also under null rows each column has the values of its buffers, and its dictionaries the parts that are held.
        ensures arrays { (s : Reader) (d : History) → IsReader self.now s → HoldsCells d (held_in dictionaries.now) → chosen_floats s.columns s.schema.fields 0 ≡ [] → IfOk result (λ x. AreAsked (arrays_read s.schema (held_in dictionaries.now) (message_of message.now) body.bytes.items) s.columns x.arrays) }
        ensures cause { IfErr result IsOfBytes }
    {
        let batch = self.read_rising(alloc, message, dictionaries, body, scratch)?;
        match &self.projection {
            None => Ok(batch),
            Some(projection) => apply_projection(alloc, batch, &projection.map),
        }
    }

    /// Adds the values of a message to the dictionaries that are held: behind those of its id where it is a delta, and else
    /// in their place. A refusal leaves what is held.
    pub(crate) fn read_dictionary(
        &self,
        alloc: Global,
        message: &DictionaryMessage,
        dictionaries: &mut Dictionaries,
        body: HeldBody,
        scratch: &mut Vec<u8>,
    ) -> Result<(), IpcError>
        requires values { HoldsValues (stream_schema self.now.metadata) (held_in dictionaries.old) }
        ensures adds { (d : History) → HoldsCells d (held_in dictionaries.old) → AddsDictionary d (held_in dictionaries.new) result (dictionary_of (stream_schema self.now.metadata) d (length body.bytes.items) (dictionary_message_of message.now).dictionary message.now.version body.bytes.items true) }

        // The array that is held has the values of the message's buffers, also under null rows; no other is put or taken away.
        ensures held { (d : History) → HoldsCells d (held_in dictionaries.old) → IfOk result (λ _. held_in dictionaries.new ≡ held_behind (stream_schema self.now.metadata) (held_in dictionaries.old) (dictionary_message_of message.now) body.bytes.items) }
        ensures values { HoldsValues (stream_schema self.now.metadata) (held_in dictionaries.new) }
        ensures cause { IfErr result IsOfBytes }
    {
        let place = body.place();
        let mut source = body;
        read_dictionary_batch(
            alloc,
            message.id,
            message.is_delta,
            true,
            &message.header,
            &self.metadata.schema,
            &self.metadata.ipc_schema,
            dictionaries,
            message.version,
            &mut source,
            place,
            place.length,
            scratch,
        )
    }
}
