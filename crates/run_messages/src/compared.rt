//! What was written, beside what should be.
use case_words::Answer;
use hex::encode;
use message_words::{Names, compare};

/// Takes the file of the next calls.
fn take_disk(answer: &Answer, bytes: &mut Vec<u8>, disk: Vec<u8>) {
    let length = disk.len();
    answer.tell(format!(in answer.alloc(); "{length} bytes"));
    *bytes = disk;
}

fn behind_hex(answer: &Answer, bytes: &[u8], wanted: &[u8]) {
    match encode(answer.alloc(), wanted) {
        Ok(text) => compare(answer, bytes, text.as_bytes()),
        Err(error) => answer.fail(error.into()),
    }
}

/// Makes the call of a name, if it is one of these: `disk PARTS`, `behind PARTS`, how what was written stands to these bytes, and
/// `behind_hex PARTS`, how it stands to their hex text.
pub(crate) fn call(
    answer: &Answer,
    names: &Names,
    bytes: &mut Vec<u8>,
    name: &str,
    words: &[&str],
) -> bool {
    if !matches!(name, "disk" | "behind" | "behind_hex") {
        return false;
    }
    let parts = names.bytes_of(answer, words);
    match name {
        "disk" => take_disk(answer, bytes, parts),
        "behind" => compare(answer, bytes, &parts),
        _ => behind_hex(answer, bytes, &parts),
    }
    true
}
