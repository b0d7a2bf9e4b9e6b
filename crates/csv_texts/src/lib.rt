//! Tables as texts of comma-separated fields: the definitions, and what holds of them.
#![tactic(auto)]

mod numbers;

ghost use Rattle.csv_texts.specs.Laws.{TextInBatches, TextNestsIn, TextOfRead};

pub use numbers::push_scaled;

/// The text of a table is its header followed by the text of each batch.
pub fn text_in_batches()
    ensures { TextInBatches }
{}

/// A file that may be printed is printed as what it means.
pub fn text_of_read()
    ensures { TextOfRead }
{}

/// What is printed of the first blocks is a front of what is printed of all.
pub fn text_nests_in()
    ensures { TextNestsIn }
{}
