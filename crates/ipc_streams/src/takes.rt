//! The messages of a stream, taken one after another.
ghost use Rattle.ipc_streams.specs.Nexts.{NextState, ReadsNext, TakesBatch, TakesDictionary, TakesMessage};

use crate::body::read_body;
use crate::cursor::StreamCursor;
use crate::frame::{Frame, read_frame};
use crate::head::read_head;
use crate::state::StreamState;
use arrow_arrays::RecordBatch;
use arrow_spec::{Counted, IpcError};
use ipc_files::{message_metadata, read_dictionary_message, read_record_message};
use ipc_io::Feed;
use std::alloc::Global;

/// How many dictionary messages may stand before a record batch.
const MOST_DICTIONARIES: usize = 1 << 20;

impl StreamCursor {
    /// Takes a dictionary message, whose body has so many bytes.
    fn take_dictionary<F: Feed>(
        &mut self,
        alloc: Global,
        feed: &mut F,
        bytes: &[u8],
        count: u64,
    ) -> Result<(), IpcError>
        ensures { TakesDictionary F.rest F.faults F.references feed.old feed.new self.old self.new bytes.now count result }
    {
        let message = read_dictionary_message(alloc, bytes)?;
        let body = read_body(alloc, feed, count)?;
        self.columns.read_dictionary(
            alloc,
            &message,
            &mut self.dictionaries,
            body,
            &mut self.scratch,
        )
    }

    /// Takes a record batch message, whose body has so many bytes.
    fn take_batch<F: Feed>(
        &mut self,
        alloc: Global,
        feed: &mut F,
        bytes: &[u8],
        count: u64,
    ) -> Result<RecordBatch, IpcError>
        ensures { TakesBatch F.rest F.faults F.references feed.old feed.new self.old self.new bytes.now count result }
    {
        let message = read_record_message(alloc, bytes)?;
        let pairs = message_metadata(alloc, bytes)?;
        let body = read_body(alloc, feed, count)?;
        let batch = self.columns.read_batch(
            alloc,
            &message,
            &self.dictionaries,
            body,
            &mut self.scratch,
        )?;
        Ok(batch.with_optional_metadata(pairs))
    }

    /// Takes a message by its metadata: a record batch, or a dictionary, where so many more may stand.
    fn take_message<F: Feed>(
        &mut self,
        alloc: Global,
        feed: &mut F,
        bytes: &[u8],
        left: usize,
    ) -> Result<Option<RecordBatch>, IpcError>
        ensures { TakesMessage F.rest F.faults F.references feed.old feed.new self.old self.new bytes.now left result }
    {
        self.columns.check()?;
        let head = read_head(bytes)?;
        if !head.is_dictionary {
            let batch = self.take_batch(alloc, feed, bytes, head.body)?;
            return Ok(Some(batch));
        }
        if left == 0 {
            return Err(IpcError::TooMany(Counted::Dictionaries));
        }
        self.take_dictionary(alloc, feed, bytes, head.body)?;
        Ok(None)
    }

    /// What stands next: a record batch, behind the dictionaries before it, or too few bytes; none at the end mark.
    fn read_next<F: Feed>(
        &mut self,
        alloc: Global,
        feed: &mut F,
    ) -> Result<Option<StreamState>, IpcError>
        ensures { ReadsNext F.rest F.faults F.references feed.old feed.new self.old self.new result }
    {
        let mut left = MOST_DICTIONARIES;
        'messages: loop {
            let frame = read_frame(alloc, feed)?;
            match frame {
                Frame::Waiting => return Ok(Some(StreamState::Waiting)),
                Frame::Ended => return Ok(None),
                Frame::Message(bytes) => {
                    let taken = self.take_message(alloc, feed, &bytes, left)?;
                    match taken {
                        Some(batch) => return Ok(Some(StreamState::Some(batch))),
                        None => left -= 1,
                    }
                }
            }
        }
    }

    /// The next record batch, or that the feed has too few bytes for a message to begin. None behind the end mark, and
    /// behind an error.
    pub(crate) fn next<F: Feed>(
        &mut self,
        alloc: Global,
        feed: &mut F,
    ) -> Option<Result<StreamState, IpcError>>
        ensures { NextState F.rest F.faults F.references feed.old feed.new self.old self.new result }
    {
        if self.is_finished {
            return None;
        }
        match self.read_next(alloc, feed) {
            Ok(found) => match found {
                Some(state) => Some(Ok(state)),
                None => {
                    self.is_finished = true;
                    None
                }
            },
            Err(error) => {
                self.is_finished = true;
                Some(Err(error))
            }
        }
    }
}
