//! The bytes of a source, one after another.
ghost use Rattle.std.specs.Prelude.{◌≡◌, ◌∷◌, drop, option_map};

use ipc_io::{Failed, Feed, Got, Source};

/// A feed of a source's bytes, from the first to the last.
#[derive(Drop)]
pub struct SourceFeed<'a, S: Source> {
    source: &'a mut S,
    at: u64,
}

impl<'a, S: Source> SourceFeed<'a, S> {
    /// A feed of all bytes of a source that is lent.
    pub fn new(source: &'a mut S) -> SourceFeed<'a, S>
        ensures same_reference { result.source.ghost_name ≡ source.entry.ghost_name }
        ensures source { result.source.now ≡ source.old }
        ensures at { result.at ≡ 0 }
    {
        SourceFeed { source, at: 0 }
    }
}

impl<'a, S: Source> Feed for SourceFeed<'a, S> {
    ghost rest = { λ f. option_map (drop f.at) (S.content f.source.now) };

    ghost faults = { λ f. S.faults f.source.now };

    ghost references = { λ f. f.source.ghost_name ∷ S.references f.source.now };

    fn pull(&mut self, out: &mut [u8]) -> Result<usize, Failed> {
        let size = self.source.size()?;
        if self.at >= size {
            return Ok(0);
        }
        let count = (size - self.at).min(out.len() as u64) as usize;
        match self.source.read_at(self.at, &mut out[..count])? {
            Got::Full => {
                self.at += count as u64;
                Ok(count)
            }
            Got::Short => Ok(0),
        }
    }
}
