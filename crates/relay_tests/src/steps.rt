// One craft's step, frame by frame: craft 1 of five, which is linked to 2, 3 and 4, and hears of craft 0 only through them.
use crate::flights::{note, send};
use frames::{Frame, Note, Step};
use pathsets::{Listener, Outcome, take_in};
use sets::CraftSet;
use shelves::Shelf;

const ONE_OF_FIVE: Listener = Listener {
    n: 5,
    f: 1,
    craft: 1,
    neighbours: 0b11100,
};

const DROPPED: Outcome = Outcome::Dropped;

fn told(set: CraftSet, to: CraftSet) -> Outcome {
    Outcome::Held { set, to }
}

fn heard(to: CraftSet) -> Outcome {
    Outcome::Heard { to }
}

// Straight through 2 it is held, and told to 3 and 4; straight through 3 it is heard, and 4 alone is told: 2 and 3 have heard it.
#[test]
fn two_paths_are_heard(rt: HostRuntime) {
    let mut shelf = Shelf::new();
    assert_eq!(rt;
        take_in(&mut shelf, &ONE_OF_FIVE, 2, &send(0)),
        told(0b00100, 0b11000)
    );
    assert_eq!(rt; take_in(&mut shelf, &ONE_OF_FIVE, 2, &send(0)), DROPPED);
    assert_eq!(rt;
        take_in(&mut shelf, &ONE_OF_FIVE, 3, &send(0)),
        heard(0b10000)
    );
    assert!(rt; shelf.covers(0, &note(Step::Send), 0));
    assert_eq!(rt; shelf.len(), 1);
    assert_eq!(rt; take_in(&mut shelf, &ONE_OF_FIVE, 4, &send(0)), DROPPED);
}

// Three paths of two craft each: any two share a craft, and all three do not. The neighbour that the last came through is told too.
#[test]
fn crossing_paths_are_heard_by_the_cut(rt: HostRuntime) {
    let mut shelf = Shelf::new();
    assert_eq!(rt;
        take_in(&mut shelf, &ONE_OF_FIVE, 2, &send(0b01000)),
        told(0b01100, 0b10000)
    );
    assert_eq!(rt;
        take_in(&mut shelf, &ONE_OF_FIVE, 2, &send(0b10000)),
        told(0b10100, 0b01000)
    );
    assert_eq!(rt; shelf.len(), 2);
    assert_eq!(rt;
        take_in(&mut shelf, &ONE_OF_FIVE, 3, &send(0b10000)),
        heard(0b11100)
    );
    assert_eq!(rt; shelf.len(), 1);
}

// A path takes the place of those that contain it, and those that contain a held one are dropped.
#[test]
fn shorter_paths_take_the_place_of_longer(rt: HostRuntime) {
    let mut shelf = Shelf::new();
    assert_eq!(rt;
        take_in(&mut shelf, &ONE_OF_FIVE, 2, &send(0b11000)),
        told(0b11100, 0)
    );
    assert_eq!(rt;
        take_in(&mut shelf, &ONE_OF_FIVE, 3, &send(0b10000)),
        told(0b11000, 0b00100)
    );
    assert_eq!(rt; shelf.len(), 1);
    assert_eq!(rt;
        take_in(&mut shelf, &ONE_OF_FIVE, 4, &send(0b01000)),
        DROPPED
    );
    assert_eq!(rt;
        take_in(&mut shelf, &ONE_OF_FIVE, 2, &send(0b11000)),
        DROPPED
    );
    assert_eq!(rt;
        take_in(&mut shelf, &ONE_OF_FIVE, 4, &send(0)),
        told(0b10000, 0b01100)
    );
    assert_eq!(rt; shelf.len(), 1);
}

// What the first step drops, each for one reason.
#[test]
fn unfit_frames_are_dropped(rt: HostRuntime) {
    let mut shelf = Shelf::new();
    // its own note, an author that is no craft, its own label, the neighbour's, the author's, a label that is no craft
    let own = Frame {
        author: 1,
        ..send(0)
    };
    let nobody = Frame {
        author: 5,
        ..send(0)
    };
    let unfit = [
        own,
        nobody,
        send(0b00010),
        send(0b00100),
        send(0b00001),
        send(0b100000),
    ];
    for frame in &unfit {
        assert_eq!(rt; take_in(&mut shelf, &ONE_OF_FIVE, 2, frame), DROPPED);
    }
    assert_eq!(rt; shelf.len(), 0);
}

// A Send by another than its origin, a number above 3, an author's own frame with a set, and that frame without one.
#[test]
fn unsound_notes_and_authors_with_a_set_are_dropped(rt: HostRuntime) {
    let mut shelf = Shelf::new();
    let other = Frame {
        author: 3,
        ..send(0)
    };
    let late = Frame {
        note: Note {
            number: 4,
            ..note(Step::Send)
        },
        ..send(0)
    };
    let echo = Frame {
        note: note(Step::Echo),
        author: 2,
        set: 0b01000,
    };
    for frame in &[other, late, echo] {
        assert_eq!(rt; take_in(&mut shelf, &ONE_OF_FIVE, 2, frame), DROPPED);
    }
    assert_eq!(rt; shelf.len(), 0);
    let straight = Frame { set: 0, ..echo };
    assert_eq!(rt;
        take_in(&mut shelf, &ONE_OF_FIVE, 2, &straight),
        heard(0b11000)
    );
}
