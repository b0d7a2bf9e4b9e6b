//! A stream that is read one record batch after another.
ghost use Rattle.std.specs.Prelude.{◌≡◌, ◌∷◌, ◌⊎◌, [], length, false, Err, Ok, IfErr, IfOk, MatchResult};
ghost use Rattle.std.specs.Rc.{rc_value};
ghost use Rattle.arrow_spec.specs.declared.error.IpcError.TheVariants.{Memory};
ghost use Rattle.arrow_spec.specs.Files.{columns_right};
ghost use Rattle.ipc_files.specs.Below.{MayProject, numbers_in, held_in, none_held};
ghost use Rattle.ipc_streams.specs.Nexts.{NextState};
ghost use Rattle.ipc_streams.specs.Readers.{fields_shown};
ghost use Rattle.ipc_streams.specs.Starts.{IsReadable};

use crate::cursor::StreamCursor;
use crate::metadata::StreamMetadata;
use crate::state::StreamState;
use arrow_spec::IpcError;
use arrow_types::ArrowSchemaRef;
use ipc_io::{Feed, Refused};
use std::alloc::Global;

/// A cursor over a stream's record batches with the feed from which they come.
#[derive(Drop)]
pub struct StreamReader<F: Feed> {
    feed: F,
    cursor: StreamCursor,
    alloc: Global,
}

impl<F: Feed> StreamReader<F> {
    /// A reader of what the feed has left behind the schema message, for the columns of these numbers, in their order, or
    /// for all.
    ///
    /// # Errors
    ///
    /// `Projection` by the first number that is no column's or that stood before; `Memory`. The feed is handed back.
    pub fn new(
        alloc: Global,
        feed: F,
        metadata: StreamMetadata,
        projection: Option<Vec<usize>>,
    ) -> Result<StreamReader<F>, Refused<F>>
        requires readable { IsReadable metadata }
        ensures projected { IfOk result (λ r. MayProject (rc_value metadata.schema) (numbers_in projection) r.cursor.columns.projection) }
        ensures right { IfOk result (λ _. columns_right (numbers_in projection) (length (rc_value metadata.schema)) ≡ Ok tt) }
        ensures err { IfErr result (λ e. (e.error ≡ Memory) ⊎ (columns_right (numbers_in projection) (length (rc_value metadata.schema)) ≡ Err (e.error ∷ []))) }
        ensures feed { MatchResult result (λ r. r.feed ≡ feed) (λ e. e.object ≡ feed) }
        ensures metadata { IfOk result (λ r. r.cursor.columns.metadata ≡ metadata) }
        ensures dictionaries { IfOk result (λ r. held_in r.cursor.dictionaries ≡ none_held) }
        ensures is_finished { IfOk result (λ r. r.cursor.is_finished ≡ false) }
    {
        match StreamCursor::new(alloc, metadata, projection) {
            Ok(cursor) => Ok(StreamReader {
                feed,
                cursor,
                alloc,
            }),
            Err(error) => Err(Refused {
                error,
                object: feed,
            }),
        }
    }

    /// What the schema message says.
    pub fn metadata(&self) -> &StreamMetadata
        ensures { result.now ≡ self.now.cursor.columns.metadata }
    {
        &self.cursor.columns.metadata
    }

    /// The schema of the columns asked for, in their order.
    pub fn schema(&self) -> &ArrowSchemaRef
        ensures { rc_value result.now ≡ fields_shown self.now.cursor.columns }
    {
        self.cursor.columns.schema()
    }

    /// Whether the end mark was read, or a call was refused: from then on there is no record batch.
    pub fn is_finished(&self) -> bool
        ensures { result ≡ self.now.cursor.is_finished }
    {
        self.cursor.is_finished
    }

    /// The feed, behind what was read of it.
    pub fn into_inner(self) -> F
        ensures { result ≡ self.feed }
    {
        self.feed
    }
}

/// The record batches in the columns asked for, in their order, each of them read or refused, and `Waiting` as often as the
/// feed has too few bytes for a message to begin. Behind the end mark and behind a refusal there is no other.
impl<F: Feed + Drop> Iterator for StreamReader<F> {
    type Item = Result<StreamState, IpcError>;

    ghost next_gives = { λ old r new. NextState F.rest F.faults F.references old.feed new.feed old.cursor new.cursor r };

    fn next(&mut self) -> Option<Result<StreamState, IpcError>> {
        self.cursor.next(self.alloc, &mut self.feed)
    }
}
