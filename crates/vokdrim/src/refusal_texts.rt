//! The texts of refusals.
use arrow_spec::{IpcError, OutOfSpecKind};
use ipc_tool::Refusal;
use std::alloc::Global;

const TEXTS: &[(Refusal, &str)] = &[
    (
        Refusal::Ipc(IpcError::OutOfSpec(OutOfSpecKind::InvalidFooter)),
        "out of specification: InvalidFooter",
    ),
    (Refusal::Ipc(IpcError::Memory), "out of memory"),
    (Refusal::Words, "the words are no request"),
    (Refusal::NotHex, "the input is no hex text"),
    (
        Refusal::InputTooLong,
        "the input is longer than 134,217,728 bytes",
    ),
    (Refusal::NoName, "nothing stands under the name"),
];

/// Whether each refusal has the text beside it.
fn have_texts(alloc: Global) -> bool {
    for (refusal, text) in TEXTS {
        let Ok(found) = format!(in alloc; "{refusal}") else {
            return false;
        };
        if found.as_str() != *text {
            return false;
        }
    }
    true
}

#[test]
fn refusals_have_texts(rt: HostRuntime) {
    assert!(rt; have_texts(rt.alloc()));
}
