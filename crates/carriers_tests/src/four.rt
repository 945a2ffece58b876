// What carriers are tried with: a chart, notes, and the entries that the entry list works in.
use cuts::{CompleteChart, open_direct};
use frames::{Frame, Note, Step};
use links::Entry;
use refusals::Fault;
use sets::CraftSet;

// Four craft, all linked.
const FOUR: [CraftSet; 4] = [0b1110, 0b1101, 0b1011, 0b0111];

// Of these one may go astray.
pub(crate) fn four() -> Result<CompleteChart, Fault> {
    open_direct(&FOUR, 1)
}

// A note that any craft may say.
pub(crate) fn echo(content: u64) -> Note {
    Note {
        content,
        step: Step::Echo,
        origin: 1,
        number: 2,
    }
}

// The frame by which an author says that note.
pub(crate) fn frame(author: u8, content: u64) -> Frame {
    Frame {
        note: echo(content),
        author,
        set: 0,
    }
}

// The entries that an entry list works in.
// The same few lines as in other crates of tests: sharing them would take a crate for them alone.
pub(crate) fn room() -> [Entry; 1008] {
    let blank = Entry {
        frame: frame(0, 0),
        from: 0,
        to: 0,
    };
    [blank; 1008]
}
