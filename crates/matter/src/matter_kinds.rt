// The kinds of matter by their numbers, which stand in a word's highest byte.
ghost use Rattle.std.specs.Prelude.{◌≡◌};
ghost use Rattle.matter.specs.AnyKind.{kind_of, KindRead};

use refusals::{Fault, Layer, Refusal};

// The kinds of matter.
#[derive(Clone, Copy, PartialEq, Eq, Debug)]
pub enum MatterKind {
    Observation,
    KeepOut,
}

// The number of a kind.
impl From<MatterKind> for u8 {
    ghost from_gives = { λ kind n. n ≡ (kind_of kind).number };

    fn from(kind: MatterKind) -> u8 {
        match kind {
            MatterKind::Observation => 1,
            MatterKind::KeepOut => 2,
        }
    }
}

// The kind that has a number. A number of no kind is refused by 11, at byte 0.
impl TryFrom<u8> for MatterKind {
    type Error = Fault;

    ghost try_from_gives = { KindRead };

    fn try_from(number: u8) -> Result<Self, Fault> {
        match number {
            1 => Ok(MatterKind::Observation),
            2 => Ok(MatterKind::KeepOut),
            _ => Err(Layer::Frames.refuses(Refusal::Range(0))),
        }
    }
}
