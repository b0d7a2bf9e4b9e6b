//! Headers of messages, prefixes, and ends of files.
use case_words::{Answer, Tables, bytes, word};
use ipc_schema::{
    BatchHeader, MessageHeader, decode_footer_len, message_prefix, read_message_header,
    read_record_message,
};

/// Rows, whether there is a compression, and the tables.
fn say_batch(answer: &Answer, header: BatchHeader) {
    let (rows, compressed) = (header.length, header.compressed);
    answer.tell(format!(in answer.alloc(); "{rows} rows, compressed {compressed}\n"));
    let tables = Tables {
        nodes: header.nodes,
        buffers: header.buffers,
        views: header.variadic,
        body: Vec::new(answer.alloc()),
    };
    tables.say_without_body(answer);
}

fn record(answer: &Answer, bytes: &[u8]) {
    match read_record_message(answer.alloc(), bytes) {
        Ok(message) => {
            let version = message.version;
            answer.tell(format!(in answer.alloc(); "{version:?}, "));
            say_batch(answer, message.header);
        }
        Err(error) => answer.fail(error.into()),
    }
}

fn say_header(answer: &Answer, header: MessageHeader) {
    match header {
        MessageHeader::Schema => answer.say("schema"),
        MessageHeader::Dictionary {
            id,
            is_delta: _,
            batch: _batch,
        } => answer.tell(format!(in answer.alloc(); "dictionary {id}")),
        MessageHeader::Batch(header) => say_batch(answer, header),
    }
}

fn header(answer: &Answer, bytes: &[u8]) {
    match read_message_header(answer.alloc(), bytes) {
        Ok(message) => {
            let (version, length) = (message.version, message.body_length);
            answer.tell(format!(in answer.alloc(); "{version:?}, body {length}, "));
            say_header(answer, message.header);
        }
        Err(error) => answer.fail(error.into()),
    }
}

/// `prefix HEX`: the bytes of the prefix and of the metadata behind it.
fn prefix(answer: &Answer, words: &[&str]) {
    match message_prefix(&bytes(answer, word(words, 0))) {
        Ok((prefix, metadata)) => answer.tell(format!(in answer.alloc(); "{prefix}+{metadata}")),
        Err(error) => answer.fail(error.into()),
    }
}

/// `footer_length END SIZE`: the length of the footer of a file that ends so.
fn footer_length(answer: &Answer, words: &[&str]) {
    let (end, size) = (bytes(answer, word(words, 0)), answer.count(word(words, 1)));
    if end.len() != 10 {
        return answer.refuse();
    }
    match decode_footer_len(&end, size as u64) {
        Ok(length) => answer.tell(format!(in answer.alloc(); "{length}")),
        Err(error) => answer.fail(error.into()),
    }
}

/// Makes a call of this part, or tells that there is none of the name.
pub fn call(answer: &Answer, held: &[u8], name: &str, words: &[&str]) -> bool {
    match name {
        "header" => header(answer, held),
        "record" => record(answer, held),
        "prefix" => prefix(answer, words),
        "footer_length" => footer_length(answer, words),
        _ => return false,
    }
    true
}
