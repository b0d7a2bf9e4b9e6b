//! Byte strings and texts, as the rows of arrays between offsets and of views.

/// What the rows of an array of bytes are.
pub trait ViewType {
    ghost use Rattle.std.specs.Prelude.{Bool};

    /// Whether they are texts, and not byte strings.
    ghost IS_TEXT: { Bool };

    /// Whether they are texts, and not byte strings.
    const IS_TEXT: bool;
}

/// Rows that are byte strings.
#[derive(Drop)]
pub struct ByteRows;

/// Rows that are texts.
#[derive(Drop)]
pub struct TextRows;

impl ViewType for ByteRows {
    ghost use Rattle.std.specs.Prelude.{false};

    ghost IS_TEXT = { false };

    const IS_TEXT: bool = false;
}

impl ViewType for TextRows {
    ghost use Rattle.std.specs.Prelude.{true};

    ghost IS_TEXT = { true };

    const IS_TEXT: bool = true;
}
