// Whether a part of a matter is in its range.
ghost use Rattle.matter.specs.Layouts.{Held};

use refusals::{Fault, Layer, Refusal};

// Nothing where the test of a part holds, or 11 with the first byte of that part.
pub fn require(holds: bool, byte: u8) -> Result<(), Fault>
    ensures { Held byte holds result }
{
    if holds {
        Ok(())
    } else {
        Err(Layer::Frames.refuses(Refusal::Range(byte)))
    }
}
