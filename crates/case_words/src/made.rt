//! What an array is made of.
use crate::arrays::bitmap;
use arrow_buffers::Bitmap;
use arrow_types::ArrowDataType;
use case_types::{Answer, type_of, word};

/// What an array is made of, but its children, as words: nothing is owned until the array is made.
#[derive(Clone, Copy)]
pub(crate) struct Made<'a> {
    pub(crate) types: &'a [&'a str],
    /// What stands behind the first word of the parts, but for the validity.
    pub(crate) words: &'a [&'a str],
    pub(crate) valid: Option<&'a str>,
}

impl<'a> Made<'a> {
    pub(crate) fn word(&self, at: usize) -> &'a str {
        word(self.words, at)
    }

    pub(crate) fn dtype(&self, answer: &Answer) -> ArrowDataType {
        type_of(answer, self.types)
    }

    pub(crate) fn validity(&self, answer: &Answer) -> Option<Bitmap> {
        match self.valid {
            Some(word) => bitmap(answer, word),
            None => None,
        }
    }
}
