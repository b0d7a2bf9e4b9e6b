//! Fields and schemas as words: `a=int8 b=list item=utf8!`.
use crate::fault::Fault;
use crate::types::{children, types_of};
use crate::words::Answer;
use arrow_types::{ArrowSchema, Field};

/// Fields, each by `NAME=TYPE` and the types of its children, with `!` behind the type of one without nulls.
pub fn fields_of(answer: &Answer, words: &[&str]) -> Vec<Field> {
    let mut types = types_of(answer, words);
    let count = types.len();
    children(answer, &mut types, count)
}

/// The schema of these fields.
pub fn schema_of(answer: &Answer, words: &[&str]) -> ArrowSchema {
    let fields = fields_of(answer, words);
    match ArrowSchema::from_fields(answer.alloc(), fields) {
        Ok(schema) => schema,
        Err(_) => {
            answer.fail(Fault::Memory);
            ArrowSchema::new(answer.alloc())
        }
    }
}
