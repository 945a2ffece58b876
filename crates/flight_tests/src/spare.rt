// Flights that are driven to a spare of two, by a shelf that fills up or by links that do, and what each call answers then;
// and how many orders there is room for.
use crate::given::{
    FOUR, WORD, by_carrier, by_flight, direct, line, linked, own, relay, room, settle, spent,
    waiting,
};
use carriers::Carrier;
use flight::Flight;
use frames::{AnyMatter, Frame, Note, Observation, Step};
use links::EntryList;
use putlog::PutLog;
use refusals::{Fault, Layer, Refusal};
use sets::with;
use std::process::Abort;
use std::test::Fail;

// A frame of craft 3, of four, that craft 0 holds and that no other is told. Over the direct carrier it is heard. Over the relay
// it came from 1 by 2 and 3, and craft 0 has no neighbour besides these.
fn held_over_direct() -> Frame {
    own(Step::Echo, 0)
}

fn held_over_relay() -> Frame {
    Frame {
        author: 1,
        set: 0b0100,
        ..own(Step::Echo, 0)
    }
}

// The frame with another content, so that it is of another note.
fn of_content(frame: &Frame, content: u64) -> Frame {
    Frame {
        note: Note {
            content,
            ..frame.note
        },
        ..*frame
    }
}

// Every craft has the delivery of an order of craft 0, and has heard nine notes.
fn one_order<C: Carrier>(rt: &impl Abort, flight: &mut Flight<C, AnyMatter>) -> Result<(), Fail> {
    assert_eq!(rt; flight.order_word(0, 0, WORD)?, None);
    settle(rt, flight, 200)?;
    assert_eq!(rt; waiting(rt, flight), 0);
    Ok(())
}

// One frame waits, and others are sent to craft 0 and carried, until a meddle is refused. Answers how many were carried.
fn fill_shelf<C: Carrier>(
    rt: &impl Abort,
    flight: &mut Flight<C, AnyMatter>,
    frame: &Frame,
) -> Result<usize, Fail> {
    flight.meddle(3, 0, *frame)?;
    for (carried, content) in (1..200).enumerate() {
        let next = of_content(frame, content);
        if let Err(fault) = flight.meddle(3, 0, next) {
            assert_eq!(rt; Some(fault), by_flight(Refusal::Spare(2)));
            return Ok(carried);
        }
        flight.carry(0)?;
    }
    panic!(rt; "never refused")
}

// Frames are sent to craft 0 and wait, until a meddle is refused. Answers how many wait.
fn fill_links<C: Carrier>(
    rt: &impl Abort,
    flight: &mut Flight<C, AnyMatter>,
) -> Result<usize, Fail> {
    for sent in 0..1008usize {
        if let Err(fault) = flight.meddle(3, 0, own(Step::Echo, sent as u64)) {
            assert_eq!(rt; Some(fault), by_flight(Refusal::Spare(2)));
            return Ok(sent);
        }
    }
    panic!(rt; "never refused")
}

// An order is refused by every other cause first.
fn orders_at_two<C: Carrier>(
    rt: &impl Abort,
    flight: &mut Flight<C, AnyMatter>,
) -> Result<(), Fail> {
    let order = flight.order_word(4, 4, 0).err();
    assert_eq!(rt; order, by_flight(Refusal::Label(4)));
    let order = flight.order_word(0, 4, 0).err();
    assert_eq!(rt; order, by_flight(Refusal::Number(4)));
    let order = flight.order_word(0, 0, 0).err();
    assert_eq!(rt; order, Some(Layer::Frames.refuses(Refusal::Range(0))));
    let order = flight.order_word(0, 0, WORD).err();
    assert_eq!(rt; order, by_flight(Refusal::Ordered(0)));
    let order = flight.order_word(1, 0, WORD).err();
    assert_eq!(rt; order, by_flight(Refusal::Spare(2)));
    let matter = AnyMatter::from(Observation::new(300, 3600, 12, 1)?);
    let order = flight.order(1, 0, &matter).err();
    assert_eq!(rt; order, by_flight(Refusal::Spare(2)));
    Ok(())
}

// So are a carry and a meddle.
fn carries_at_two<C: Carrier>(rt: &impl Abort, flight: &mut Flight<C, AnyMatter>, count: usize) {
    assert_eq!(rt;
        flight.carry(usize::MAX).err(),
        by_carrier(Refusal::Index(count))
    );
    assert_eq!(rt;
        flight.carry(count).err(),
        by_carrier(Refusal::Index(count))
    );
    assert_eq!(rt; flight.carry(0).err(), by_flight(Refusal::Spare(2)));
    let frame = own(Step::Echo, 1);
    assert_eq!(rt;
        flight.meddle(5, 4, frame).err(),
        by_carrier(Refusal::Label(5))
    );
    assert_eq!(rt;
        flight.meddle(2, 4, frame).err(),
        by_carrier(Refusal::Label(4))
    );
    assert_eq!(rt;
        flight.meddle(2, 2, frame).err(),
        by_carrier(Refusal::NoLink(2))
    );
    assert_eq!(rt;
        flight.meddle(2, 0, frame).err(),
        by_carrier(Refusal::Astray(2))
    );
    assert_eq!(rt;
        flight.meddle(3, 0, frame).err(),
        by_flight(Refusal::Spare(2))
    );
}

// What was delivered is collected, put back and booked all the same.
fn books_at_two<C: Carrier>(
    rt: &impl Abort,
    flight: &mut Flight<C, AnyMatter>,
) -> Result<(), Fail> {
    let book = line(rt, flight, 1, 0, 0)?;
    assert_eq!(rt; &book, b"book 1 0 0 01012c000e100c01\n");
    let slip = flight.collect(2, 0, 0)?;
    spent(rt, flight.put_back(slip));
    let book = line(rt, flight, 2, 0, 0)?;
    assert_eq!(rt; &book, b"book 2 0 0 01012c000e100c01\n");
    Ok(())
}

fn answers_at_two<C: Carrier>(
    rt: &impl Abort,
    flight: &mut Flight<C, AnyMatter>,
    count: usize,
) -> Result<(), Fail> {
    assert_eq!(rt; flight.carrier().spare(), 2);
    orders_at_two(rt, flight)?;
    carries_at_two(rt, flight, count);
    books_at_two(rt, flight)?;
    carries_at_two(rt, flight, count);
    assert_eq!(rt; flight.carrier().spare(), 2);
    Ok(())
}

// Of a shelf's 120 rows nine are taken, so 109 more leave two.
fn by_shelf<C: Carrier>(
    rt: &impl Abort,
    flight: &mut Flight<C, AnyMatter>,
    frame: &Frame,
) -> Result<(), Fail> {
    one_order(rt, flight)?;
    assert_eq!(rt; fill_shelf(rt, flight, frame)?, 109);
    answers_at_two(rt, flight, 1)
}

// Everything waits.
fn by_links<C: Carrier>(
    rt: &impl Abort,
    flight: &mut Flight<C, AnyMatter>,
    want: usize,
) -> Result<(), Fail> {
    one_order(rt, flight)?;
    assert_eq!(rt; fill_links(rt, flight)?, want);
    answers_at_two(rt, flight, want)
}

// The put log has 128 places, and 126 taken leave two.
const TAKEN_OF_LOG: usize = 126;

// The entry list has 1,008 entries, a seventh of those free is spare, and 988 taken leave 20.
const TAKEN_OF_LIST: usize = 988;

#[test]
fn spare_two_over_direct_and_entries(rt: HostRuntime) -> Result<(), Fail> {
    let mut list = room();
    let mut flight = direct(EntryList::new(&mut list), &FOUR, 1)?;
    by_shelf(&rt, &mut flight, &held_over_direct())?;
    let mut list = room();
    let mut flight = direct(EntryList::new(&mut list), &FOUR, 1)?;
    by_links(&rt, &mut flight, TAKEN_OF_LIST)
}

#[test]
fn spare_two_over_direct_and_log(rt: HostRuntime) -> Result<(), Fail> {
    let mut flight = direct(PutLog::new(), &FOUR, 1)?;
    by_shelf(&rt, &mut flight, &held_over_direct())?;
    let mut flight = direct(PutLog::new(), &FOUR, 1)?;
    by_links(&rt, &mut flight, TAKEN_OF_LOG)
}

#[test]
fn spare_two_over_relay_and_entries(rt: HostRuntime) -> Result<(), Fail> {
    let mut list = room();
    let mut flight = relay(EntryList::new(&mut list), &FOUR, 1)?;
    by_shelf(&rt, &mut flight, &held_over_relay())?;
    let mut list = room();
    let mut flight = relay(EntryList::new(&mut list), &FOUR, 1)?;
    by_links(&rt, &mut flight, TAKEN_OF_LIST)
}

#[test]
fn spare_two_over_relay_and_log(rt: HostRuntime) -> Result<(), Fail> {
    let mut flight = relay(PutLog::new(), &FOUR, 1)?;
    by_shelf(&rt, &mut flight, &held_over_relay())?;
    let mut flight = relay(PutLog::new(), &FOUR, 1)?;
    by_links(&rt, &mut flight, TAKEN_OF_LOG)
}

// So many orders, each of them carried to rest: by every craft under number 0, then under 1, and so on.
fn orders<C: Carrier>(
    rt: &impl Abort,
    flight: &mut Flight<C, AnyMatter>,
    n: u8,
    count: usize,
) -> Result<(), Fail> {
    let all = (0..4).flat_map(|number| (0..n).map(move |craft| (craft, number)));
    for (craft, number) in all.take(count) {
        flight.order_word(craft, number, WORD)?;
        settle(rt, flight, 200)?;
        assert_eq!(rt; waiting(rt, flight), 0);
    }
    Ok(())
}

// Carries index 0 until a carry is refused. Answers how often, and why.
fn carry_on<C: Carrier>(
    rt: &impl Abort,
    flight: &mut Flight<C, AnyMatter>,
) -> (usize, Option<Fault>) {
    for carried in 0..1000 {
        if let Err(fault) = flight.carry(0) {
            return (carried, Some(fault));
        }
    }
    panic!(rt; "never refused")
}

// An order takes 2N + 1 rows of each shelf's 120, for good. Of four craft thirteen orders take 117. One more is taken, and then
// the origin's Send and Echo leave too little for any carry.
#[test]
fn four_craft_carry_thirteen_orders_to_rest(rt: HostRuntime) -> Result<(), Fail> {
    let mut flight = direct(PutLog::new(), &FOUR, 1)?;
    orders(&rt, &mut flight, 4, 13)?;
    assert_eq!(rt; flight.order_word(1, 3, WORD)?, None);
    assert_eq!(rt; waiting(&rt, &mut flight), 6);
    assert_eq!(rt;
        carry_on(&rt, &mut flight),
        (0, by_flight(Refusal::Spare(1)))
    );
    let order = flight.order_word(2, 3, WORD).err();
    assert_eq!(rt; order, by_flight(Refusal::Spare(1)));
    Ok(())
}

// Of eight craft six orders take 102 rows. The seventh is delivered to all, but the first shelf with 118 rows ends the carries:
// 18 of 119 are left, by a model in another language too.
#[test]
fn eight_craft_carry_six_orders_to_rest(rt: HostRuntime) -> Result<(), Fail> {
    let mut flight = direct(PutLog::new(), &linked(8), 2)?;
    orders(&rt, &mut flight, 8, 6)?;
    assert_eq!(rt; flight.order_word(6, 0, WORD)?, None);
    let stuck = by_flight(Refusal::Spare(2));
    assert_eq!(rt; carry_on(&rt, &mut flight), (101, stuck));
    assert_eq!(rt; waiting(&rt, &mut flight), 18);
    assert_eq!(rt; flight.order_word(7, 0, WORD).err(), stuck);
    for craft in 0..8 {
        let book = line(&rt, &mut flight, craft, 6, 0)?;
        assert_eq!(rt; &book[7..], b"6 0 01012c000e100c01\n".as_slice());
    }
    Ok(())
}

// Of seven craft seven orders take 105 rows. The eighth stops where one craft has its delivery and six have none: no two have
// different words, but nothing comes to rest any more.
#[test]
fn seven_craft_carry_seven_orders_to_rest(rt: HostRuntime) -> Result<(), Fail> {
    let mut flight = direct(PutLog::new(), &linked(7)[..7], 2)?;
    orders(&rt, &mut flight, 7, 7)?;
    assert_eq!(rt; flight.order_word(0, 1, WORD)?, None);
    let stuck = by_flight(Refusal::Spare(2));
    assert_eq!(rt; carry_on(&rt, &mut flight), (67, stuck));
    assert_eq!(rt; waiting(&rt, &mut flight), 23);
    let mut booked = 0u8;
    for craft in 0..7 {
        match flight.collect(craft, 0, 1) {
            Ok(slip) => {
                spent(&rt, flight.book(slip, &mut [0; 28], 0));
                booked = with(booked, craft);
            }
            Err(fault) => assert_eq!(rt; Some(fault), by_flight(Refusal::NoSlip(1))),
        }
    }
    assert_eq!(rt; booked, 0b0000010);
    Ok(())
}
