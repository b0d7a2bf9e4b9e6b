//! Bytes beside those that are wanted.
use case_words::Answer;

/// How many bytes are equal from the front on.
fn equal_bytes(bytes: &[u8], wanted: &[u8]) -> usize {
    let length = bytes.len().min(wanted.len());
    for at in 0..length {
        if bytes[at] != wanted[at] {
            return at;
        }
    }
    length
}

/// Tells how bytes stand to those that are wanted.
pub fn compare(answer: &Answer, bytes: &[u8], wanted: &[u8]) {
    let (length, all) = (bytes.len(), wanted.len());
    let equal = equal_bytes(bytes, wanted);
    if equal < length {
        answer.tell(format!(in answer.alloc(); "{length} bytes, other from byte {equal}"));
    } else if length < all {
        answer.tell(format!(in answer.alloc(); "the first {length} of {all} bytes"));
    } else {
        answer.say("same");
    }
}
