//! How bytes are put into a sink.
ghost use Rattle.std.specs.Prelude.{◌≡◌, ◌/◌};
ghost use Rattle.ipc_bodies.specs.Encodings.{made_width, text_width};

/// How bytes are put into a sink.
#[derive(Clone, Copy, Debug, PartialEq, Eq)]
pub enum Encoding {
    /// As they are.
    Bytes,
    /// As lower-case hex text.
    HexText,
}

impl Encoding {
    /// How many bytes have their text in so much room.
    pub(crate) fn bytes_in(self, room: usize) -> usize
        ensures { result ≡ room / text_width self }
    {
        match self {
            Encoding::Bytes => room,
            Encoding::HexText => room / 2,
        }
    }

    /// How many bytes are made in so much room, with their text behind them where they have one of its own.
    pub(crate) fn made_in(self, room: usize) -> usize
        ensures { result ≡ room / made_width self }
    {
        match self {
            Encoding::Bytes => room,
            Encoding::HexText => room / 3,
        }
    }
}
