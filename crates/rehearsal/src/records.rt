// Records as values: what a rehearsal is to do, one after the other.
ghost use Rattle.std.specs.Prelude.{◌≡◌};
ghost use Rattle.carriers.specs.Judging.{Judged};
ghost use Rattle.rehearsal.specs.Openings.{pile_causes};
ghost use Rattle.rehearsal.specs.Records.{OpeningOf, CallOf};

use crate::piles::Pile;
use cuts::{open_direct, open_relay};
use frames::Frame;
use refusals::{Fault, Layer, Refusal};
use sets::CraftSet;

/// A call of the flight.
#[derive(Clone, Copy, PartialEq, Eq, Debug)]
pub enum Call {
    /// Craft, number and word.
    Order(u8, u8, u64),
    /// The index of a waiting frame.
    Carry(usize),
    /// The craft that meddles, the neighbour that it meddles to, and the frame.
    Meddle(u8, u8, Frame),
}

/// What a flight is to be opened on: a pile, how many craft may go astray, and the rows of its chart.
#[derive(Clone, Copy, PartialEq, Eq, Debug)]
pub struct Opening<'a> {
    pub pile: Pile,
    pub f: u8,
    pub rows: &'a [CraftSet],
}

/// A record: an open, or a call.
#[derive(Clone, Copy, PartialEq, Eq, Debug)]
pub enum Record<'a> {
    Open(Opening<'a>),
    Call(Call),
}

impl Opening<'_> {
    /// Whether the pile's test lets the chart of these rows pass; 2, 3, 4. It opens nothing.
    pub fn judge(&self) -> Result<(), Fault>
        ensures { Judged (pile_causes self.now.pile self.now.rows.now self.now.f) result }
    {
        match self.pile {
            Pile::DirectEntries | Pile::DirectLog => {
                let _chart = open_direct(self.rows, self.f)?;
            }
            Pile::RelayEntries | Pile::RelayLog => {
                let _chart = open_relay(self.rows, self.f)?;
            }
        }
        Ok(())
    }
}

impl<'a> Record<'a> {
    /// The opening that a first record is due to be. Any other is refused by 16.
    pub fn opening(self) -> Result<Opening<'a>, Fault>
        ensures { OpeningOf self.entry result }
    {
        match self {
            Record::Open(opening) => Ok(opening),
            Record::Call(_) => Err(Layer::Frames.refuses(Refusal::Unknown)),
        }
    }

    /// The call that a later record is due to be. An open is refused by 16.
    pub fn call(self) -> Result<Call, Fault>
        ensures { CallOf self.entry result }
    {
        match self {
            Record::Open(_) => Err(Layer::Frames.refuses(Refusal::Unknown)),
            Record::Call(call) => Ok(call),
        }
    }
}
