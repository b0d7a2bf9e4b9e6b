//! Bytes beside those that are wanted.
use case_words::Answer;

/// How many bytes from the front are the same.
pub(crate) fn same_front(one: &[u8], other: &[u8]) -> usize {
    let mut pairs = one.iter().zip(other.iter());
    match pairs.position(|(byte, second)| byte != second) {
        Some(at) => at,
        None => one.len().min(other.len()),
    }
}

/// How two lists of bytes compare.
pub fn say_compared(answer: &Answer, found: &[u8], wanted: &[u8]) {
    if found == wanted {
        return answer.say("same");
    }
    let (length, same) = (found.len(), same_front(found, wanted));
    answer.tell(format!(in answer.alloc(); "{length} bytes, other from {same} on"));
}

/// How many bytes there are, and their sum: from 14695981039346656037 on, each byte is joined by exclusive or, and the whole is multiplied
/// by 1099511628211 (FNV-1a, 64 bits).
pub fn say_sum(answer: &Answer, bytes: &[u8]) {
    let mut sum = 14695981039346656037u64;
    for byte in bytes {
        sum = (sum ^ u64::from(*byte)).wrapping_mul(1099511628211);
    }
    let length = bytes.len();
    answer.tell(format!(in answer.alloc(); "{length} bytes, {sum:016x}"));
}
