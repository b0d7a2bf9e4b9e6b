//! Numbers that are turned from one byte order into the other.
ghost use Rattle.std.specs.Prelude.{◌≡◌, ◌+◌, length};
ghost use Rattle.arrow_spec.specs.Flat.{big};
ghost use Rattle.arrow_types.specs.Physical.{primitive_size};
ghost use Rattle.arrow_buffers.specs.Rows.{part};
ghost use Rattle.ipc_bodies.specs.Pieces.{in_order, turned, AreNumbers};
ghost use Rattle.ipc_bodies.specs.Places.{IsPiece};

use arrow_buffers::Buffer;
use arrow_types::PrimitiveType;
use std::marker::Model;

/// Numbers that are held in one order, seen as their bytes in the other.
#[derive(Drop)]
pub(crate) struct TurnedNumbers {
    bytes: Buffer<u8>,
    primitive: PrimitiveType,
    width: usize,
}

impl Model for TurnedNumbers {
    ghost use Rattle.std.specs.Prelude.{◌≡◌, ℕ, List};
    ghost use Rattle.arrow_types.specs.Physical.{primitive_size};
    ghost use Rattle.ipc_bodies.specs.Pieces.{turned, AreNumbers};

    ghost Value = { List ℕ };

    ghost view = { λ n. turned n.primitive n.bytes };

    ghost invariant = { λ n. (primitive_size n.primitive ≡ n.width) × AreNumbers n.primitive n.bytes };
}

/// Turns each integer in a number by itself.
fn turn(primitive: PrimitiveType, number: &mut [u8])
    requires { length number.old ≡ primitive_size primitive }
    ensures { number.new ≡ in_order big primitive number.old }
{
    match primitive {
        PrimitiveType::DaysMs => {
            number[..4].reverse();
            number[4..].reverse();
        }
        PrimitiveType::MonthDayNano => {
            number[..4].reverse();
            number[4..8].reverse();
            number[8..].reverse();
        }
        _ => number.reverse(),
    }
}

/// Turns each of some numbers.
fn turn_each(primitive: PrimitiveType, width: usize, numbers: &mut [u8])
    requires width { primitive_size primitive ≡ width }
    requires whole { AreNumbers primitive numbers.old }
    ensures { numbers.new ≡ turned primitive numbers.old }
{
    for i in 0..numbers.len() / width {
        let at = width * i;
        turn(primitive, &mut numbers[at..at + width]);
    }
}

impl TurnedNumbers {
    /// The numbers in some bytes.
    pub(crate) fn new(bytes: Buffer<u8>, primitive: PrimitiveType, width: usize) -> TurnedNumbers
        requires width { primitive_size primitive ≡ width }
        requires whole { AreNumbers primitive bytes }
        ensures { result ≡ turned primitive bytes }
    {
        TurnedNumbers {
            bytes,
            primitive,
            width,
        }
    }

    pub(crate) fn len(&self) -> usize
        ensures { result ≡ length self.now }
    {
        self.bytes.len()
    }

    /// Fills `out` with the bytes from one on.
    pub(crate) fn fill(&self, at: usize, out: &mut [u8])
        requires { IsPiece at (length out.old) (length self.now) }
        ensures { out.new ≡ part at (length out.old) self.now }
    {
        let bytes = self.bytes.as_slice();
        out.copy_from_slice(&bytes[at..at + out.len()]);
        turn_each(self.primitive, self.width, out);
    }
}
