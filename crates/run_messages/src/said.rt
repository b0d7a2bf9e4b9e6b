//! What calls answer that give no value.
use crate::sinks::Tally;
use arrow_spec::IpcError;
use case_words::Answer;

pub(crate) fn say_error(answer: &Answer, error: IpcError) {
    answer.tell(format!(in answer.alloc(); "{error}"));
}

/// What a call gives but for a value, and how many bytes a sink has behind it.
pub(crate) fn say_done(answer: &Answer, done: Result<(), IpcError>, tally: &Option<Tally>) {
    match done {
        Ok(()) => answer.say("ok"),
        Err(error) => say_error(answer, error),
    }
    if let Some(tally) = tally {
        let length = tally.get();
        answer.tell(format!(in answer.alloc(); ", {length} bytes"));
    }
}

/// The text of an answer that was made for a part of this one.
pub(crate) fn text_of(answer: &Answer, part: Answer) -> String {
    match part.into_text() {
        Ok(text) => text,
        Err(fault) => {
            answer.fail(fault);
            String::new(answer.alloc())
        }
    }
}
