//! Answers in a row that are the same.
use device_words::{Answer, text_of};

/// Answers in a row with one text, and the least and the greatest of the numbers that stand with them.
#[derive(Drop)]
pub(crate) struct Group {
    pub(crate) text: String,
    pub(crate) least: usize,
    pub(crate) greatest: usize,
}

/// An answer more.
pub(crate) fn add(answer: &Answer, groups: &mut Vec<Group>, more: Answer, number: usize) {
    let Some(text) = answer.value(text_of(answer.alloc(), more)) else {
        return;
    };
    if let Some(last) = groups.last_mut() {
        if last.text == text {
            last.least = last.least.min(number);
            last.greatest = last.greatest.max(number);
            return;
        }
    }
    answer.done(groups.push(Group {
        text,
        least: number,
        greatest: number,
    }));
}
