//! The schema of a stream that a file's columns are sent as. The contract of a function without arguments is a law, proved in `proofs/`.
ghost use Rattle.std.specs.Prelude.{◌≡◌};
ghost use Rattle.arrow_types.specs.Schemas.{fields_in};
ghost use Rattle.laws_writers.specs.Below.{plain_fields};
ghost use Rattle.laws_sent.specs.SchemaLaws.{BegunAreReadable, BegunIsSent, FieldsAreSent, MessageIsSent, RefusedAsFile, UnreadAreRefused};

use arrow_types::ArrowSchema;

/// A schema of the columns that are asked for, with ids that count from 0, may be written, and its fields are the file's (Arrow Columnar Format, "Schema message").
pub fn fields_are_sent()
    ensures { FieldsAreSent }
{}

/// A stream of the columns is begun with the message of the file's schema, where that may be sent.
pub fn message_is_sent()
    ensures { MessageIsSent }
{}

/// A stream of columns is begun only where they can be read.
pub fn begun_are_readable()
    ensures { BegunAreReadable }
{}

/// A stream of columns that cannot be read is refused for what of them is never read.
pub fn unread_are_refused()
    ensures { UnreadAreRefused }
{}

/// Where a stream of a file's columns is begun, the file's schema may be sent, and its message was.
pub fn begun_is_sent()
    ensures { BegunIsSent }
{}

/// Where it is not, the file is refused so.
pub fn refused_as_file()
    ensures { RefusedAsFile }
{}

/// The types of a schema's fields state no ids of dictionaries.
pub fn types_have_no_ids(schema: &ArrowSchema)
    ensures { plain_fields (fields_in schema.now) ≡ fields_in schema.now }
{
    let _entries = schema.iter();
}
