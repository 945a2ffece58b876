// What flights are tried with: charts, words, frames, flights over each carrier, and calls that are made again and again.
use carriers::{Carrier, Direct};
use cuts::{open_direct, open_relay};
use flight::{Flight, Slip};
use frames::{AnyMatter, Frame, Note, Step};
use links::{Entry, LinkService};
use refusals::{Fault, Layer, Refusal};
use relay::Relay;
use sets::{CraftSet, all_below, without};
use std::process::Abort;
use std::test::Fail;

// Two craft that hear each other.
pub(crate) const TWO: [CraftSet; 2] = [0b10, 0b01];

// Four craft, all linked.
pub(crate) const FOUR: [CraftSet; 4] = [0b1110, 0b1101, 0b1011, 0b0111];

// Five craft, of which only 0 and 1 are not linked.
pub(crate) const FIVE: [CraftSet; 5] = [0b11100, 0b11100, 0b11011, 0b10111, 0b01111];

// Rows in which every two of n craft are linked.
pub(crate) fn linked(n: u8) -> [CraftSet; 8] {
    let mut rows = [0; 8];
    for (craft, row) in (0..8).zip(&mut rows) {
        *row = without(all_below(n), craft);
    }
    rows
}

// An observation of target 300 from second 3,600 on, for 12 seconds, in mode 1.
pub(crate) const WORD: u64 = 0x0101_2c00_0e10_0c01;

// The same of target 301.
pub(crate) const OTHER_WORD: u64 = 0x0101_2d00_0e10_0c01;

// A flight over the direct carrier, and one over the relay.
pub(crate) fn direct<L: LinkService + Drop>(
    links: L,
    rows: &[CraftSet],
    f: u8,
) -> Result<Flight<Direct<L>, AnyMatter>, Fault> {
    let carrier = Direct::open(links, open_direct(rows, f)?)?;
    Ok(Flight::open(carrier))
}

pub(crate) fn relay<L: LinkService + Drop>(
    links: L,
    rows: &[CraftSet],
    f: u8,
) -> Result<Flight<Relay<L>, AnyMatter>, Fault> {
    let carrier = Relay::open(links, open_relay(rows, f)?)?;
    Ok(Flight::open(carrier))
}

// What craft 3 says of its own first order, to the craft that hear it.
pub(crate) fn own(step: Step, content: u64) -> Frame {
    let note = Note {
        content,
        step,
        origin: 3,
        number: 0,
    };
    Frame {
        note,
        author: 3,
        set: 0,
    }
}

// The entries that an entry list works in.
// The same few lines as in other crates of tests: sharing them would take a crate for them alone.
pub(crate) fn room() -> [Entry; 1008] {
    let blank = Entry {
        frame: own(Step::Echo, 0),
        from: 0,
        to: 0,
    };
    [blank; 1008]
}

// The fault of a refusal by the flight itself, and by its carrier.
pub(crate) fn by_flight(refusal: Refusal) -> Option<Fault> {
    Some(Layer::Flight.refuses(refusal))
}

pub(crate) fn by_carrier(refusal: Refusal) -> Option<Fault> {
    Some(Layer::Carriers.refuses(refusal))
}

// How many frames wait. A carry from beyond them is refused with their count.
pub(crate) fn waiting<C: Carrier>(rt: &impl Abort, flight: &mut Flight<C, AnyMatter>) -> usize {
    let Err(fault) = flight.carry(usize::MAX) else {
        panic!(rt; "carried from beyond what waits")
    };
    let Refusal::Index(count) = fault.refusal else {
        panic!(rt; "{fault}")
    };
    assert_eq!(rt; fault.layer, Layer::Carriers);
    assert_eq!(rt; flight.carrier().waiting(), count);
    count
}

// The slip of a book or a put back was spent.
pub(crate) fn spent(rt: &impl Abort, answer: Result<(), (Slip, Fault)>) {
    if let Err((_slip, fault)) = answer {
        panic!(rt; "{fault}")
    }
}

// A book or a put back was refused by this; the slip is back.
pub(crate) fn refused(
    rt: &impl Abort,
    answer: Result<(), (Slip, Fault)>,
    want: Option<Fault>,
) -> Slip {
    match answer {
        Ok(()) => panic!(rt; "the slip is spent"),
        Err((slip, fault)) => {
            assert_eq!(rt; Some(fault), want);
            slip
        }
    }
}

// The line by which a craft books its delivery.
pub(crate) fn line<C: Carrier>(
    rt: &impl Abort,
    flight: &mut Flight<C, AnyMatter>,
    craft: u8,
    origin: u8,
    number: u8,
) -> Result<[u8; 28], Fail> {
    let slip = flight.collect(craft, origin, number)?;
    let mut line = [0; 28];
    spent(rt, flight.book(slip, &mut line, 0));
    Ok(line)
}

// Carries index 0 until nothing waits, or so many times. Answers how often.
pub(crate) fn settle<C: Carrier>(
    rt: &impl Abort,
    flight: &mut Flight<C, AnyMatter>,
    most: usize,
) -> Result<usize, Fail> {
    for carried in 0..most {
        if waiting(rt, flight) == 0 {
            return Ok(carried);
        }
        flight.carry(0)?;
    }
    Ok(most)
}
