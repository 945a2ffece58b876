// The booking line, which the planner reads.
ghost use Rattle.std.specs.Prelude.{◌≡◌, ◌<◌, [], ◌∷◌};
ghost use Rattle.frames.specs.Bytes.{Puts};
ghost use Rattle.frames.specs.Lines.{Booked, hex, hexes, line_bytes};

use crate::bookings::Booking;
use crate::buffers::put_at;
use crate::notes::LAST_NUMBER;
use refusals::{Fault, Layer, Refusal};
use sets::LABELS;

// The lowercase hexadecimal digit of a number below 16, in ASCII.
// By arithmetic: `char::from_digit` answers an Option of a char, which is no plainer for a byte.
fn hex_digit(n: u8) -> u8
    requires { n < 16 }
    ensures { result ≡ hex n }
{
    if n < 10 { b'0' + n } else { b'a' - 10 + n }
}

// The two hexadecimal digits of a byte.
pub fn hex_pair(byte: u8) -> [u8; 2]
    ensures { result ≡ hexes (byte ∷ []) }
{
    [hex_digit(byte / 16), hex_digit(byte % 16)]
}

impl Booking {
    // A line's length in bytes.
    pub const LINE_LENGTH: usize = 28;

    // The booking of these labels, number and word; an `if` for each cause, since each tells another value. A label that no craft has is refused by 1, the craft's before the origin's, and a number above 3 by 5.
    pub fn new(craft: u8, origin: u8, number: u8, word: u64) -> Result<Booking, Fault>
        ensures { Booked craft origin number word result }
    {
        if craft >= LABELS {
            return Err(Layer::Frames.refuses(Refusal::Label(craft)));
        }
        if origin >= LABELS {
            return Err(Layer::Frames.refuses(Refusal::Label(origin)));
        }
        if number > LAST_NUMBER {
            return Err(Layer::Frames.refuses(Refusal::Number(number)));
        }
        Ok(Booking {
            craft,
            origin,
            number,
            word,
        })
    }

    // The line's 28 bytes. No Display: a craft has no heap, and writes them into a buffer that is lent.
    pub fn line(&self) -> [u8; 28]
        ensures { result ≡ line_bytes self.now }
    {
        let mut line = *b"book 0 0 0 0000000000000000\n";
        line[5] = hex_digit(self.craft);
        line[7] = hex_digit(self.origin);
        line[9] = hex_digit(self.number);
        let word = self.word.to_be_bytes().map(hex_pair);
        line[11..27].copy_from_slice(word.as_flattened());
        line
    }

    // Writes the line into the part of the buffer that starts at a place. A buffer too short is refused by 13, and left as it was.
    pub fn write_at(&self, buf: &mut [u8], at: usize) -> Result<(), Fault>
        ensures { Puts buf.old at (line_bytes self.now) result buf.new }
    {
        put_at(buf, at, &self.line())
    }
}
