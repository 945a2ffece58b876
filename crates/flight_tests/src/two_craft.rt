// The listing of two craft that hear each other: craft 0 orders, and everything is carried to rest in the order in which it was put.
use crate::given::{TWO, WORD, by_carrier, direct, line, relay, room};
use carriers::{Carrier, Heard};
use flight::{Flight, Hearing};
use frames::{AnyMatter, Note, Step};
use links::EntryList;
use putlog::PutLog;
use refusals::Refusal;
use std::process::Abort;
use std::test::Fail;
use votes::Delivery;

// What a listener hears of an author, of the order of craft 0.
pub(crate) fn hears(
    listener: u8,
    author: u8,
    step: Step,
    delivery: Option<Delivery>,
) -> Option<Hearing> {
    let note = Note {
        content: WORD,
        step,
        origin: 0,
        number: 0,
    };
    let heard = Heard {
        note,
        listener,
        author,
    };
    Some(Hearing { heard, delivery })
}

// The order's word, delivered to a craft.
pub(crate) fn delivered(craft: u8) -> Option<Delivery> {
    Some(Delivery {
        word: WORD,
        craft,
        origin: 0,
        number: 0,
    })
}

// Five carries: a Send, an Echo by each craft, a Ready by each craft. Both deliver on the Echo that they hear.
fn lists<C: Carrier>(rt: &impl Abort, flight: &mut Flight<C, AnyMatter>) -> Result<(), Fail> {
    assert_eq!(rt; flight.order_word(0, 0, WORD)?, None);
    assert_eq!(rt; flight.carry(0)?, hears(1, 0, Step::Send, None));
    assert_eq!(rt; flight.carry(0)?, hears(1, 0, Step::Echo, delivered(1)));
    let book = line(rt, flight, 1, 0, 0)?;
    assert_eq!(rt; &book, b"book 1 0 0 01012c000e100c01\n");
    assert_eq!(rt; flight.carry(0)?, hears(0, 1, Step::Echo, delivered(0)));
    let book = line(rt, flight, 0, 0, 0)?;
    assert_eq!(rt; &book, b"book 0 0 0 01012c000e100c01\n");
    assert_eq!(rt; flight.carry(0)?, hears(0, 1, Step::Ready, None));
    assert_eq!(rt; flight.carry(0)?, hears(1, 0, Step::Ready, None));
    assert_eq!(rt; flight.carry(0).err(), by_carrier(Refusal::Index(0)));
    Ok(())
}

// Two frames wait, and 31 of the 32 Echoes and Readies are not said, each of them 7.
#[test]
fn the_toil_after_the_first_order_is_219(rt: HostRuntime) -> Result<(), Fail> {
    let mut flight = direct(PutLog::new(), &TWO, 0)?;
    assert_eq!(rt; flight.toil(), 7 * 32);
    flight.order_word(0, 0, WORD)?;
    assert_eq!(rt; flight.toil(), 219);
    Ok(())
}

#[test]
fn two_craft_agree_over_direct_and_entries(rt: HostRuntime) -> Result<(), Fail> {
    let mut list = room();
    lists(&rt, &mut direct(EntryList::new(&mut list), &TWO, 0)?)
}

#[test]
fn two_craft_agree_over_direct_and_log(rt: HostRuntime) -> Result<(), Fail> {
    lists(&rt, &mut direct(PutLog::new(), &TWO, 0)?)
}

#[test]
fn two_craft_agree_over_relay_and_entries(rt: HostRuntime) -> Result<(), Fail> {
    let mut list = room();
    lists(&rt, &mut relay(EntryList::new(&mut list), &TWO, 0)?)
}

#[test]
fn two_craft_agree_over_relay_and_log(rt: HostRuntime) -> Result<(), Fail> {
    lists(&rt, &mut relay(PutLog::new(), &TWO, 0)?)
}
