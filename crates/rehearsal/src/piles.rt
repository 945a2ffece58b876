// Piles: a carrier over a link service.
ghost use Rattle.rehearsal.specs.Records.{PileRead};

use refusals::{Fault, Layer, Refusal};

/// What a flight can be opened on: the direct carrier or the relay, over the entry list or the put log.
#[derive(Clone, Copy, PartialEq, Eq, Debug)]
pub enum Pile {
    DirectEntries,
    DirectLog,
    RelayEntries,
    RelayLog,
}

/// The pile of a number, from 1. A number of no pile is refused by 16.
impl TryFrom<u8> for Pile {
    type Error = Fault;

    ghost try_from_gives = { PileRead };

    fn try_from(number: u8) -> Result<Self, Fault> {
        match number {
            1 => Ok(Pile::DirectEntries),
            2 => Ok(Pile::DirectLog),
            3 => Ok(Pile::RelayEntries),
            4 => Ok(Pile::RelayLog),
            _ => Err(Layer::Frames.refuses(Refusal::Unknown)),
        }
    }
}
