//! Runs whose device fails at its first call, its second and so on.
use crate::groups::{Group, add};
use crate::runs::{run_words, say_status};
use device_words::{Answer, NotingSink, Outside, rest, word};

/// What a run puts whose device does not fail.
fn whole(answer: &Answer, outside: &mut Outside, device: &str, words: &[&str]) -> NotingSink {
    outside.fail_at(answer, device, Vec::new(answer.alloc()));
    let mut devices = outside.devices(answer);
    let mut output = outside.output(answer);
    let _ = run_words(answer, &mut devices, &mut output, words);
    output
}

/// How much was put, but where the output fails, which may be at any place; and whether it is the front of what a whole run puts.
fn say_put(answer: &Answer, device: &str, put: &[u8], whole: &[u8]) {
    if device == "output" {
        answer.say(", a front");
    } else {
        let length = put.len();
        answer.tell(format!(in answer.alloc(); ", {length} put"));
    }
    if !whole.starts_with(put) {
        answer.say(" of other bytes");
    }
}

/// One run, whose status is given.
fn attempt(
    answer: &Answer,
    outside: &Outside,
    device: &str,
    words: &[&str],
    whole: &[u8],
    groups: &mut Vec<Group>,
) -> u8 {
    let mut devices = outside.devices(answer);
    let mut output = outside.output(answer);
    let status = run_words(answer, &mut devices, &mut output, words);
    let told = Answer::new(answer.alloc());
    say_status(&told, status, devices.notes.bytes());
    say_put(&told, device, output.bytes(), whole);
    add(answer, groups, told, outside.kept(&devices.shelf));
    status
}

/// `each DEVICE WORD..`: runs up to one that is not refused, each with what it put and how much it kept of the first file.
pub(crate) fn run_each(answer: &Answer, outside: &mut Outside, words: &[&str]) {
    let (device, words) = (word(words, 0), rest(words, 1));
    let whole = whole(answer, outside, device, words);
    let mut groups = Vec::new(answer.alloc());
    for call in 0u64..999 {
        let calls = answer.list(vec![in answer.alloc(); call]);
        outside.fail_at(answer, device, calls);
        if attempt(answer, outside, device, words, whole.bytes(), &mut groups) == 0 {
            break;
        }
    }
    outside.fail_at(answer, device, Vec::new(answer.alloc()));
    let mut end = "";
    for group in &groups {
        let (text, kept) = (group.text.as_str(), group.least);
        answer.tell(format!(in answer.alloc(); "{end}{text}, {kept} kept"));
        end = "\n";
    }
}
