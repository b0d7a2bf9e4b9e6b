//! Words that stand behind a name, and what they say.
ghost use Rattle.std.specs.Prelude.{◌≤◌, length, IfOk};

use arrow_types::Metadata;
use case_words::{Answer, Fault, counts, halves, word};
use std::alloc::Global;

/// The words in front of the first bar or `ids`.
pub fn front<'a>(words: &'a [&'a str]) -> &'a [&'a str] {
    let (front, _) = halves(words, "|");
    let (front, _) = halves(front, "ids");
    front
}

/// The words behind a mark.
pub(crate) fn behind<'a>(words: &'a [&'a str], mark: &str) -> &'a [&'a str] {
    let (_, behind) = halves(words, mark);
    behind
}

/// Whether a name is among the words.
pub fn has(words: &[&str], name: &str) -> bool {
    words.contains(&name)
}

/// The word behind a name, or no character.
fn named<'a>(words: &'a [&'a str], name: &str) -> &'a str {
    word(behind(words, name), 0)
}

/// The count behind a name.
pub fn optional_count(answer: &Answer, words: &[&str], name: &str) -> Option<usize> {
    match named(words, name) {
        "" => None,
        word => Some(answer.count(word)),
    }
}

/// The counts, joined by commas, behind a name; `-` is none of them.
pub fn optional_counts(answer: &Answer, words: &[&str], name: &str) -> Option<Vec<usize>> {
    match named(words, name) {
        "" => None,
        "-" => Some(Vec::new(answer.alloc())),
        word => Some(counts(answer, word)),
    }
}

/// The numbers of calls behind a name, or none.
pub fn numbers_of(answer: &Answer, words: &[&str], name: &str) -> Vec<u64> {
    let mut numbers = Vec::new(answer.alloc());
    for count in &counts(answer, named(words, name)) {
        answer.done(numbers.push(*count as u64));
    }
    numbers
}

fn one_pair(alloc: Global, key: &str, value: &str) -> Result<Metadata, Fault>
    ensures { IfOk result (λ pairs. length pairs.entries ≤ 1) }
{
    let mut pairs = Metadata::new(alloc);
    drop(pairs.insert(
        String::from_str(alloc, key)?,
        String::from_str(alloc, value)?,
    )?);
    Ok(pairs)
}

/// The pair `KEY=VALUE`.
pub fn pair_of(answer: &Answer, word: &str) -> Metadata
    ensures { length result.entries ≤ 1 }
{
    let Some((key, value)) = word.split_once('=') else {
        answer.refuse();
        return Metadata::new(answer.alloc());
    };
    match one_pair(answer.alloc(), key, value) {
        Ok(pairs) => pairs,
        Err(fault) => {
            answer.fail(fault);
            Metadata::new(answer.alloc())
        }
    }
}
