// Craft 3 sends two words under one number, and votes for both. Whatever the order of the carries, no two other craft have different words
// delivered, and where one of them has a delivery when nothing waits, all have.
use crate::given::{FIVE, FOUR, OTHER_WORD, WORD, direct, own, relay, room, waiting};
use carriers::Carrier;
use flight::Flight;
use frames::{AnyMatter, Step};
use links::{EntryList, LinkService};
use putlog::PutLog;
use std::process::Abort;
use std::test::Fail;
use votes::Delivery;

// What is picked, one number after the other: each is worked out of the one before it.
#[derive(Drop)]
struct Picks {
    last: u32,
}

impl Picks {
    fn from(seed: u32) -> Picks {
        Picks { last: seed }
    }

    // One of the indices below a count, 0 if there is none.
    fn below(&mut self, count: usize) -> usize {
        self.last = self
            .last
            .wrapping_mul(1_664_525)
            .wrapping_add(1_013_904_223);
        ((self.last >> 16) as usize).checked_rem(count).unwrap_or(0)
    }
}

// The word of each craft's delivery of the order of craft 3.
#[derive(Drop)]
struct Delivered {
    words: [Option<u64>; 8],
}

impl Delivered {
    fn none() -> Delivered {
        Delivered { words: [None; 8] }
    }

    // Craft 3 is astray: what it has delivered binds nobody.
    fn add(&mut self, rt: &impl Abort, delivery: &Delivery) {
        assert_eq!(rt; delivery.origin, 3);
        assert_eq!(rt; delivery.number, 0);
        if delivery.craft == 3 {
            return;
        }
        let Some(word) = self.words.get_mut(usize::from(delivery.craft)) else {
            panic!(rt; "delivered to no craft")
        };
        assert_eq!(rt; *word, None);
        *word = Some(delivery.word);
    }

    // Deliveries to any two craft are of one word.
    fn agree(&self) -> bool {
        self.words.iter().flatten().all(|word| self
            .words
            .iter()
            .flatten()
            .all(|other| word == other))
    }

    fn count(&self) -> usize {
        self.words.iter().flatten().count()
    }

    fn is_of(&self, word: u64) -> bool {
        self.words.iter().flatten().any(|w| *w == word)
    }
}

// How many orders of carries ended with the first word delivered, with the other, and with none; and how many carries there were.
#[derive(Clone, Copy, PartialEq, Eq, Debug)]
struct Tally {
    word: u32,
    other: u32,
    none: u32,
    carries: usize,
}

impl Tally {
    fn empty() -> Tally {
        Tally {
            word: 0,
            other: 0,
            none: 0,
            carries: 0,
        }
    }

    fn add(&mut self, delivered: &Delivered, carries: usize) {
        self.carries = self.carries.saturating_add(carries);
        if delivered.is_of(WORD) {
            self.word = self.word.saturating_add(1);
        } else if delivered.is_of(OTHER_WORD) {
            self.other = self.other.saturating_add(1);
        } else {
            self.none = self.none.saturating_add(1);
        }
    }
}

// Craft 3 sends one word to some, the other to some, and votes for both before all its neighbours: of two Echoes of one author
// the first counts, and of two Readies.
fn meddles<C: Carrier>(
    flight: &mut Flight<C, AnyMatter>,
    one: &[u8],
    other: &[u8],
    neighbours: &[u8],
) -> Result<(), Fail> {
    for to in one {
        flight.meddle(3, *to, own(Step::Send, WORD))?;
    }
    for to in other {
        flight.meddle(3, *to, own(Step::Send, OTHER_WORD))?;
    }
    for step in [Step::Echo, Step::Ready] {
        for to in neighbours {
            flight.meddle(3, *to, own(step, WORD))?;
            flight.meddle(3, *to, own(step, OTHER_WORD))?;
        }
    }
    Ok(())
}

// Carries whatever is picked until nothing waits; no carry is refused. Answers how often.
fn carries<C: Carrier>(
    rt: &impl Abort,
    flight: &mut Flight<C, AnyMatter>,
    picks: &mut Picks,
    delivered: &mut Delivered,
) -> Result<usize, Fail> {
    for carried in 0..2000 {
        let count = waiting(rt, flight);
        if count == 0 {
            return Ok(carried);
        }
        let hearing = flight.carry(picks.below(count))?;
        if let Some(delivery) = hearing.and_then(|hearing| hearing.delivery) {
            delivered.add(rt, &delivery);
        }
    }
    panic!(rt; "no rest")
}

// One order of carries among n craft, with what comes of it.
fn flies<C: Carrier>(
    rt: &impl Abort,
    flight: &mut Flight<C, AnyMatter>,
    seed: u32,
    n: usize,
    tally: &mut Tally,
) -> Result<(), Fail> {
    let mut delivered = Delivered::none();
    let carried = carries(rt, flight, &mut Picks::from(seed), &mut delivered)?;
    assert!(rt; delivered.agree(), "seed {seed}");
    let count = delivered.count();
    assert!(rt; count == 0 || count == n.saturating_sub(1), "seed {seed}");
    tally.add(&delivered, carried);
    Ok(())
}

// One order of carries of four craft that all hear each other.
fn flies_direct<L: LinkService + Drop>(
    rt: &impl Abort,
    links: L,
    seed: u32,
    tally: &mut Tally,
) -> Result<(), Fail> {
    let mut flight = direct(links, &FOUR, 1)?;
    meddles(&mut flight, &[0, 2], &[1, 2], &[0, 1, 2])?;
    flies(rt, &mut flight, seed, 4, tally)
}

// The same of five craft, of which 0 and 1 are not linked.
fn flies_relay<L: LinkService + Drop>(
    rt: &impl Abort,
    links: L,
    seed: u32,
    tally: &mut Tally,
) -> Result<(), Fail> {
    let mut flight = relay(links, &FIVE, 1)?;
    meddles(&mut flight, &[0, 4], &[1, 2], &[0, 1, 2, 4])?;
    flies(rt, &mut flight, seed, 5, tally)
}

// The tallies were counted by a model of flight and carriers in another language, which shares no code with them.
#[test]
fn two_words_over_direct_and_log(rt: HostRuntime) -> Result<(), Fail> {
    let mut tally = Tally::empty();
    for seed in 0..100 {
        flies_direct(&rt, PutLog::new(), seed, &mut tally)?;
    }
    assert_eq!(rt;
        tally,
        Tally {
            word: 36,
            other: 41,
            none: 23,
            carries: 3451
        }
    );
    Ok(())
}

#[test]
fn two_words_over_direct_and_entries(rt: HostRuntime) -> Result<(), Fail> {
    let mut tally = Tally::empty();
    let mut list = room();
    for seed in 100..200 {
        flies_direct(&rt, EntryList::new(&mut list), seed, &mut tally)?;
    }
    assert_eq!(rt;
        tally,
        Tally {
            word: 42,
            other: 41,
            none: 17,
            carries: 3511
        }
    );
    Ok(())
}

#[test]
fn two_words_over_relay_and_log(rt: HostRuntime) -> Result<(), Fail> {
    let mut tally = Tally::empty();
    for seed in 0..100 {
        flies_relay(&rt, PutLog::new(), seed, &mut tally)?;
    }
    assert_eq!(rt;
        tally,
        Tally {
            word: 17,
            other: 22,
            none: 61,
            carries: 17_732
        }
    );
    Ok(())
}

#[test]
fn two_words_over_relay_and_entries(rt: HostRuntime) -> Result<(), Fail> {
    let mut tally = Tally::empty();
    let mut list = room();
    for seed in 100..200 {
        flies_relay(&rt, EntryList::new(&mut list), seed, &mut tally)?;
    }
    assert_eq!(rt;
        tally,
        Tally {
            word: 20,
            other: 21,
            none: 59,
            carries: 17_918
        }
    );
    Ok(())
}
