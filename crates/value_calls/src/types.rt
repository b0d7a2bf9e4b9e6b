//! Types, and schemas as they are kept.
use arrow_arrays::is_carried;
use arrow_types::{ArrowDataType, ArrowSchema, Metadata, get_extension};
use case_words::{Answer, fields_of, halves, rest, schema_of, type_of, word};

/// How the columns of a type lie.
fn say_layout(answer: &Answer, dtype: &ArrowDataType) {
    let layout = dtype.to_physical_type();
    answer.tell(format!(in answer.alloc(); "{layout:?}"));
}

/// `logical TYPE | TYPE`: whether the second one is below the extensions of the first.
fn logical(answer: &Answer, words: &[&str]) {
    let (outer, inner) = halves(words, "|");
    let (outer, inner) = (type_of(answer, outer), type_of(answer, inner));
    let is_same = *outer.to_logical_type() == inner;
    answer.say(if is_same { "same" } else { "other" });
}

/// The pairs of `KEY=VALUE ..`.
pub(crate) fn pairs_of(answer: &Answer, words: &[&str]) -> Metadata {
    let mut pairs = Metadata::new(answer.alloc());
    for word in words {
        let (key, value) = word.split_once('=').unwrap_or((*word, ""));
        let (key, value) = (answer.text(key), answer.text(value));
        drop(answer.value(pairs.insert(key, value)));
    }
    pairs
}

/// The extension that a field's pairs say: its name, and what else is said.
fn extension(answer: &Answer, words: &[&str]) {
    let pairs = pairs_of(answer, words);
    match get_extension(&pairs) {
        Some((name, Some(said))) => answer.tell(format!(in answer.alloc(); "{name} {said}")),
        Some((name, None)) => answer.say(name),
        None => answer.say("none"),
    }
}

/// The keys of a schema, in its order.
pub(crate) fn say_names(answer: &Answer, schema: &ArrowSchema) {
    answer.say("fields");
    for (name, _) in schema.iter() {
        answer.say(" ");
        answer.say(name);
    }
}

/// `field AT`: the key and the layout of a field.
fn field(answer: &Answer, schema: &ArrowSchema, words: &[&str]) {
    match schema.get_at_index(answer.count(word(words, 0))) {
        Some((key, field)) => {
            answer.say(key);
            answer.say(" ");
            say_layout(answer, &field.dtype);
        }
        None => answer.say("none"),
    }
}

/// `insert KEY FIELD`: the layout of the field that stood there.
fn insert(answer: &Answer, schema: &mut ArrowSchema, words: &[&str]) {
    let key = answer.text(word(words, 0));
    let Some(field) = fields_of(answer, rest(words, 1)).pop() else {
        return answer.refuse();
    };
    match answer.value(schema.insert(key, field)) {
        Some(Some(field)) => say_layout(answer, field.dtype()),
        _ => answer.say("none"),
    }
}

/// `schema FIELDS`: how many fields.
fn begin(answer: &Answer, schema: &mut ArrowSchema, words: &[&str]) {
    *schema = schema_of(answer, words);
    let (count, is_empty) = (schema.len(), schema.is_empty());
    answer.tell(format!(in answer.alloc(); "{count} fields, empty {is_empty}"));
}

/// Makes a call of this part, or tells that there is none of the name.
pub fn call(answer: &Answer, schema: &mut ArrowSchema, name: &str, words: &[&str]) -> bool {
    match name {
        "layout" => {
            let dtype = type_of(answer, words);
            say_layout(answer, &dtype)
        }
        "logical" => logical(answer, words),
        "carried" => {
            let is_carried = is_carried(&type_of(answer, words));
            answer.say(if is_carried { "yes" } else { "no" })
        }
        "extension_of" => extension(answer, words),
        "schema" => begin(answer, schema, words),
        "fields" => say_names(answer, schema),
        "field" => field(answer, schema, words),
        "has" => {
            let has = schema.contains(word(words, 0));
            answer.say(if has { "yes" } else { "no" })
        }
        "insert" => insert(answer, schema, words),
        _ => return false,
    }
    true
}
