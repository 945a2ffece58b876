// What relays are tried with: charts, notes, and the entries that the entry list works in.
use cuts::{PassedChart, open_relay};
use frames::{Frame, Note, Step};
use links::Entry;
use refusals::Fault;
use sets::CraftSet;

// Four craft, all linked.
const FOUR: [CraftSet; 4] = [0b1110, 0b1101, 0b1011, 0b0111];

// Five craft, of which only 0 and 1 are not linked.
const FIVE: [CraftSet; 5] = [0b11100, 0b11100, 0b11011, 0b10111, 0b01111];

// Of four craft one may go astray, and of five.
pub(crate) fn four() -> Result<PassedChart, Fault> {
    open_relay(&FOUR, 1)
}

pub(crate) fn five() -> Result<PassedChart, Fault> {
    open_relay(&FIVE, 1)
}

// A note about the first order of craft 0.
pub(crate) fn note(step: Step) -> Note {
    Note {
        content: 300,
        step,
        origin: 0,
        number: 0,
    }
}

// A frame with that note as a Send, by craft 0.
pub(crate) fn send(set: CraftSet) -> Frame {
    Frame {
        note: note(Step::Send),
        author: 0,
        set,
    }
}

// The entries that an entry list works in.
// The same few lines as in other crates of tests: sharing them would take a crate for them alone.
pub(crate) fn room() -> [Entry; 1008] {
    let blank = Entry {
        frame: send(0),
        from: 0,
        to: 0,
    };
    [blank; 1008]
}
