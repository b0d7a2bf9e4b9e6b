//! Objects that are lent are objects, so that a reader or a writer may own what it was only lent.
ghost use Rattle.std.specs.Prelude.{◌∷◌};

use crate::{Failed, Feed, Got, PutError, Sink, Source};

impl<'a, S: Source> Source for &'a mut S {
    ghost content = { λ s. S.content s.now };

    ghost faults = { λ s. S.faults s.now };

    ghost fetched = { λ s. S.fetched s.now };

    ghost references = { λ s. s.ghost_name ∷ S.references s.now };

    fn size(&mut self) -> Result<u64, Failed> {
        (**self).size()
    }

    fn read_at(&mut self, at: u64, out: &mut [u8]) -> Result<Got, Failed> {
        (**self).read_at(at, out)
    }
}

impl<'a, I: Feed> Feed for &'a mut I {
    ghost rest = { λ s. I.rest s.now };

    ghost faults = { λ s. I.faults s.now };

    ghost references = { λ s. s.ghost_name ∷ I.references s.now };

    fn pull(&mut self, out: &mut [u8]) -> Result<usize, Failed> {
        (**self).pull(out)
    }
}

impl<'a, W: Sink> Sink for &'a mut W {
    ghost written = { λ s. W.written s.now };

    ghost faults = { λ s. W.faults s.now };

    ghost wants = { λ s. W.wants s.now };

    ghost references = { λ s. s.ghost_name ∷ W.references s.now };

    ghost longest = { λ s. W.longest s.now };

    fn put(&mut self, bytes: &[u8]) -> Result<(), PutError> {
        (**self).put(bytes)
    }
}
