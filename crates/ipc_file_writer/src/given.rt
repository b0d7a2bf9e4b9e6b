//! Messages that were encoded before, as a file has them.
ghost use Rattle.std.specs.Prelude.{◌++◌, ◌∷◌, ◌≡◌, []};
ghost use Rattle.ipc_messages.specs.Below.{moved};
ghost use Rattle.ipc_messages.specs.Puts.{PutsBeforeWant};
ghost use Rattle.ipc_file_writer.specs.Given.{FramesMore, HasOtherScratch, PutsGiven, WritesGiven};

use crate::blocks::ChunkBlocks;
use crate::file::FileCore;
use crate::placing::framed_sizes;
use arrow_spec::IpcError;
use ipc_io::Sink;
use ipc_messages::{EncodedData, FramedMessage, Stop, framed_chunk, put_framed};
use std::mem;

/// Messages of dictionaries and of a batch, framed where they stand, and their blocks.
#[derive(Drop)]
struct FramedChunk<'a> {
    messages: Vec<FramedMessage<'a>>,
    blocks: ChunkBlocks,
}

impl FileCore {
    /// Messages of dictionaries and of the batch behind them, framed, with their blocks, for which room is made.
    fn frame<'a>(
        &mut self,
        dictionaries: &'a [EncodedData],
        batch: &'a EncodedData,
    ) -> Result<FramedChunk<'a>, IpcError>
        ensures { FramesMore result self.old self.new dictionaries.now batch.now }
    {
        let limit = self.options.metadata_limit;
        let messages = framed_chunk(self.alloc, dictionaries, batch, limit)?;
        let sizes = framed_sizes(self.alloc, messages.as_slice())?;
        let blocks = self.place(sizes.as_slice())?;
        Ok(FramedChunk { messages, blocks })
    }

    /// Puts them, and keeps their blocks.
    fn put_given<W: Sink>(
        &mut self,
        sink: &mut W,
        dictionaries: &[EncodedData],
        batch: &EncodedData,
    ) -> Result<(), Stop>
        ensures puts { PutsGiven (moved (W.written sink.old) (W.written sink.new) (W.faults sink.old) (W.faults sink.new) (W.wants sink.old) (W.wants sink.new)) result self.old self.new dictionaries.now batch.now }
        ensures wants { PutsBeforeWant result (W.written sink.old) (W.written sink.new) }
        ensures same_references { W.references sink.new ≡ W.references sink.old }
    {
        match self.frame(dictionaries, batch) {
            Ok(framed) => {
                let scratch = self.scratch.as_mut_slice();
                put_framed(sink, framed.messages.as_slice(), scratch)?;
                self.blocks.add(&framed.blocks);
                self.has_written = true;
                Ok(())
            }
            Err(error) => Err(Stop {
                error,
                has_begun: false,
            }),
        }
    }

    /// Puts messages of dictionaries, and behind them a batch's, as `encode_chunk` of `ipc_messages` gives them, with their bodies in
    /// pieces of at most 65,536 bytes, and keeps where they stand. They are put as they are: what they say is not looked at, and
    /// the writer does not know of their dictionaries, so behind such with dictionaries `write` may send these again. The file has
    /// to be begun and not ended.
    ///
    /// # Errors
    ///
    /// `State` where the file is not begun, or is ended, or a put has failed; `TooLarge` where the padded metadata of a message
    /// passes its limit, or it has more than 2^31 - 1 bytes before its body, or ends behind the place 2^63 - 1; `Memory`. Each leaves
    /// writer and sink, want of memory too where it is the first put that wants it. Behind `WriteFault`, and `Memory` of a later put,
    /// a part of the messages is put, and the writer has failed.
    pub fn write_encoded<W: Sink>(
        &mut self,
        sink: &mut W,
        encoded_dictionaries: &[EncodedData],
        encoded_message: &EncodedData,
    ) -> Result<(), IpcError>
        ensures writes { WritesGiven (moved (W.written sink.old) (W.written sink.new) (W.faults sink.old) (W.faults sink.new) (W.wants sink.old) (W.wants sink.new)) result self.old self.new encoded_dictionaries.now encoded_message.now }
        ensures same_references { W.references sink.new ≡ W.references sink.old }
    {
        if !self.state.is_started() {
            return Err(IpcError::State);
        }
        match self.put_given(sink, encoded_dictionaries, encoded_message) {
            Ok(()) => Ok(()),
            Err(stop) => Err(self.stop_at(stop)),
        }
    }

    /// Puts a batch's message, as [`FileCore::write_encoded`] does without dictionaries.
    ///
    /// # Errors
    ///
    /// As of [`FileCore::write_encoded`].
    pub fn write_encoded_record_batch<W: Sink>(
        &mut self,
        sink: &mut W,
        encoded_message: &EncodedData,
    ) -> Result<(), IpcError>
        ensures writes { WritesGiven (moved (W.written sink.old) (W.written sink.new) (W.faults sink.old) (W.faults sink.new) (W.wants sink.old) (W.wants sink.new)) result self.old self.new [] encoded_message.now }
        ensures same_references { W.references sink.new ≡ W.references sink.old }
    {
        self.write_encoded(sink, &[], encoded_message)
    }

    /// Takes the memory through which bodies are put. Its bytes are of no meaning, and its metadata is empty. A later batch takes
    /// such memory again.
    pub fn get_scratches(&mut self) -> EncodedData
        ensures taken { result.arrow_data ≡ self.old.scratch }
        ensures others { HasOtherScratch self.old self.new }
    {
        let none = Vec::new(self.alloc);
        EncodedData {
            ipc_message: Vec::new(self.alloc),
            arrow_data: mem::replace(&mut self.scratch, none),
        }
    }

    /// Gives memory through which bodies are put: that of a body, as `get_scratches` has it.
    pub fn set_scratches(&mut self, scratches: EncodedData)
        ensures given { self.new.scratch ≡ scratches.arrow_data }
        ensures others { HasOtherScratch self.old self.new }
    {
        self.scratch = scratches.arrow_data;
    }
}
