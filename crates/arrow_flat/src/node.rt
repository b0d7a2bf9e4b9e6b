//! What a flatbuffer is built from.
ghost use Rattle.std.specs.Prelude.{◌≡◌, ◌≢◌, if◌then◌else◌, pos};
ghost use Rattle.std.specs.Int.{w8, w16, w32, w64, from_bool};
ghost use Rattle.arrow_flat.specs.Nodes.{nothing, number, slot_of};

/// A part that stands on its own, and that offsets lead to.
#[cycle(node)]
#[derive(Debug, Drop)]
pub enum Node {
    /// A table, by its slots in order.
    Table(Vec<Slot>),
    /// A text, laid with a 0 behind it that is not counted.
    Text(String),
    /// A vector of structs of 8 byte alignment: how many they are, and their bytes.
    Structs(u32, Vec<u8>),
    /// A vector of numbers of 32 bits.
    I32s(Vec<i32>),
    /// A vector of numbers of 64 bits.
    I64s(Vec<i64>),
    /// A vector of tables.
    Tables(Vec<Node>),
}

/// A slot of a table.
#[cycle(node)]
#[derive(Debug, Drop)]
pub enum Slot {
    /// Nothing: the slot has its default.
    Absent,
    /// An unsigned number of 8 bits.
    U8(u8),
    /// A signed number of 8 bits.
    I8(i8),
    /// A truth value, in a byte.
    Bool(bool),
    /// A signed number of 16 bits.
    I16(i16),
    /// A signed number of 32 bits.
    I32(i32),
    /// A signed number of 64 bits.
    I64(i64),
    /// An offset of 32 bits, and the part that it leads to.
    Child(Node),
}

fn unless(is_default: bool, slot: Slot) -> Slot
    ensures { result ≡ (if is_default then Slot.Absent else slot) }
{
    if is_default { Slot::Absent } else { slot }
}

impl Slot {
    /// An unsigned 8 bit slot, absent where the value is its default.
    pub fn u8(value: u8, default: u8) -> Slot
        ensures left_out { value ≡ default → slot_of result ≡ nothing }
        ensures kept { value ≢ default → slot_of result ≡ number w8 (pos value) }
    {
        unless(value == default, Slot::U8(value))
    }

    /// A signed 8 bit slot, absent where the value is its default.
    pub fn i8(value: i8, default: i8) -> Slot
        ensures left_out { value ≡ default → slot_of result ≡ nothing }
        ensures kept { value ≢ default → slot_of result ≡ number w8 value }
    {
        unless(value == default, Slot::I8(value))
    }

    /// A truth value in one byte, absent where it is its default.
    pub fn boolean(value: bool, default: bool) -> Slot
        ensures left_out { value ≡ default → slot_of result ≡ nothing }
        ensures kept { value ≢ default → slot_of result ≡ number w8 (pos (from_bool value)) }
    {
        unless(value == default, Slot::Bool(value))
    }

    /// A signed 16 bit slot, absent where the value is its default.
    pub fn i16(value: i16, default: i16) -> Slot
        ensures left_out { value ≡ default → slot_of result ≡ nothing }
        ensures kept { value ≢ default → slot_of result ≡ number w16 value }
    {
        unless(value == default, Slot::I16(value))
    }

    /// A signed 32 bit slot, absent where the value is its default.
    pub fn i32(value: i32, default: i32) -> Slot
        ensures left_out { value ≡ default → slot_of result ≡ nothing }
        ensures kept { value ≢ default → slot_of result ≡ number w32 value }
    {
        unless(value == default, Slot::I32(value))
    }

    /// A signed 64 bit slot, absent where the value is its default.
    pub fn i64(value: i64, default: i64) -> Slot
        ensures left_out { value ≡ default → slot_of result ≡ nothing }
        ensures kept { value ≢ default → slot_of result ≡ number w64 value }
    {
        unless(value == default, Slot::I64(value))
    }
}
