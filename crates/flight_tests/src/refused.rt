// The refusals of order, carry, meddle and collect, each at its edge, and where several causes hold, the one that is answered.
use crate::given::{
    FIVE, FOUR, OTHER_WORD, TWO, WORD, by_carrier, by_flight, direct, line, linked, own, relay,
    room, settle, spent, waiting,
};
use carriers::Carrier;
use flight::Flight;
use frames::{AnyMatter, KeepOut, Observation, Step};
use links::EntryList;
use putlog::PutLog;
use refusals::{Layer, Refusal};
use std::process::Abort;
use std::test::Fail;

// Words out of range, each with the first byte of the first field that is.
const OUT_OF_RANGE: [(u64, u8); 10] = [
    (0x0001_2c00_0e10_0c01, 0),
    (0x0301_2c00_0e10_0c01, 0),
    (0x0100_0000_0e10_0c01, 1),
    (0x0100_0001_5180_0004, 1),
    (0x0101_2c01_5180_0c01, 3),
    (0x0101_2c00_0e10_0001, 6),
    (0x0101_2c00_0e10_0c04, 7),
    (0x0200_0000_0e10_0001, 1),
    (0x0200_0101_5180_0001, 3),
    (0x0200_0100_0e10_05a1, 6),
];

// The label comes first, then the number, then the word, and only then whether the craft has ordered under the number.
// That the spare comes last is seen where it is two.
fn refuses_orders<C: Carrier>(
    rt: &impl Abort,
    flight: &mut Flight<C, AnyMatter>,
) -> Result<(), Fail> {
    assert_eq!(rt; flight.order_word(0, 3, WORD)?, None);
    for (craft, number, word, want) in [
        (4, 4, 0, Refusal::Label(4)),
        (255, 0, WORD, Refusal::Label(255)),
        (3, 4, 0, Refusal::Number(4)),
        (0, 255, WORD, Refusal::Number(255)),
        (0, 3, WORD, Refusal::Ordered(3)),
        (0, 3, OTHER_WORD, Refusal::Ordered(3)),
    ] {
        let order = flight.order_word(craft, number, word).err();
        assert_eq!(rt; order, by_flight(want), "craft {craft}, number {number}");
    }
    for &(word, byte) in &OUT_OF_RANGE {
        let want = Some(Layer::Frames.refuses(Refusal::Range(byte)));
        assert_eq!(rt; flight.order_word(0, 3, word).err(), want, "word {word:x}");
        assert_eq!(rt; flight.order_word(3, 0, word).err(), want, "word {word:x}");
    }
    assert_eq!(rt; flight.order_word(3, 0, 0x01ff_ff01_517f_ff03)?, None);
    assert_eq!(rt; flight.order_word(0, 0, 0x02ff_ff01_517f_05a0)?, None);
    Ok(())
}

// Matter is ordered as its word is.
fn orders_matter<C: Carrier>(
    rt: &impl Abort,
    flight: &mut Flight<C, AnyMatter>,
) -> Result<(), Fail> {
    let image = AnyMatter::from(Observation::new(300, 3600, 12, 1)?);
    let zone = AnyMatter::from(KeepOut::new(65_535, 86_399, 1440)?);
    assert_eq!(rt;
        flight.order(4, 4, &image).err(),
        by_flight(Refusal::Label(4))
    );
    assert_eq!(rt;
        flight.order(1, 4, &image).err(),
        by_flight(Refusal::Number(4))
    );
    assert_eq!(rt; flight.order(1, 2, &image)?, None);
    assert_eq!(rt;
        flight.order(1, 2, &zone).err(),
        by_flight(Refusal::Ordered(2))
    );
    assert_eq!(rt;
        flight.order_word(1, 2, WORD).err(),
        by_flight(Refusal::Ordered(2))
    );
    assert_eq!(rt; flight.order(1, 3, &zone)?, None);
    settle(rt, flight, 200)?;
    assert_eq!(rt; waiting(rt, flight), 0);
    let book = line(rt, flight, 0, 1, 2)?;
    assert_eq!(rt; &book, b"book 0 1 2 01012c000e100c01\n");
    let book = line(rt, flight, 3, 1, 3)?;
    assert_eq!(rt; &book, b"book 3 1 3 02ffff01517f05a0\n");
    Ok(())
}

#[test]
fn orders_are_refused_by_the_first_cause(rt: HostRuntime) -> Result<(), Fail> {
    let mut list = room();
    refuses_orders(&rt, &mut direct(PutLog::new(), &FOUR, 1)?)?;
    refuses_orders(&rt, &mut relay(EntryList::new(&mut list), &FOUR, 1)?)
}

#[test]
fn matter_is_ordered_as_its_word(rt: HostRuntime) -> Result<(), Fail> {
    let mut list = room();
    orders_matter(&rt, &mut direct(PutLog::new(), &FOUR, 1)?)?;
    orders_matter(&rt, &mut relay(EntryList::new(&mut list), &FOUR, 1)?)
}

// Each of these meddles is refused by the carrier, sends nothing and leads nobody astray.
fn refuses_meddles<C: Carrier>(
    rt: &impl Abort,
    flight: &mut Flight<C, AnyMatter>,
    cases: &[(u8, u8, Refusal)],
) {
    let before = waiting(rt, flight);
    let astray = flight.carrier().astray();
    for &(c, to, want) in cases {
        let meddle = flight.meddle(c, to, own(Step::Send, WORD)).err();
        assert_eq!(rt; meddle, by_carrier(want), "from {c} to {to}");
    }
    assert_eq!(rt; waiting(rt, flight), before);
    assert_eq!(rt; flight.carrier().astray(), astray);
}

// Of n craft, the last goes astray. Before, a meddle is refused by its labels and by its link, and afterwards by who is astray as well.
fn one_astray<C: Carrier>(
    rt: &impl Abort,
    flight: &mut Flight<C, AnyMatter>,
    n: u8,
) -> Result<(), Fail> {
    let last = n.saturating_sub(1);
    let unlinked = [
        (255, n, Refusal::Label(255)),
        (n, 255, Refusal::Label(n)),
        (0, n, Refusal::Label(n)),
        (0, 255, Refusal::Label(255)),
        (0, 0, Refusal::NoLink(0)),
        (last, last, Refusal::NoLink(last)),
    ];
    refuses_meddles(rt, flight, &unlinked);
    flight.meddle(last, 0, own(Step::Send, WORD))?;
    refuses_meddles(rt, flight, &unlinked);
    refuses_meddles(
        rt,
        flight,
        &[(0, last, Refusal::Astray(0)), (2, 0, Refusal::Astray(2))],
    );
    flight.meddle(last, 2, own(Step::Send, WORD))?;
    assert_eq!(rt; waiting(rt, flight), 2);
    Ok(())
}

#[test]
fn with_f_one_a_second_craft_may_not_meddle(rt: HostRuntime) -> Result<(), Fail> {
    let mut list = room();
    one_astray(&rt, &mut direct(PutLog::new(), &FOUR, 1)?, 4)?;
    let mut five = relay(EntryList::new(&mut list), &FIVE, 1)?;
    let unlinked = [(0, 1, Refusal::NoLink(0)), (1, 0, Refusal::NoLink(1))];
    refuses_meddles(&rt, &mut five, &unlinked);
    one_astray(&rt, &mut five, 5)?;
    refuses_meddles(&rt, &mut five, &unlinked);
    Ok(())
}

#[test]
fn with_f_none_no_craft_may_meddle(rt: HostRuntime) -> Result<(), Fail> {
    let cases = [
        (2, 0, Refusal::Label(2)),
        (0, 2, Refusal::Label(2)),
        (0, 0, Refusal::NoLink(0)),
        (0, 1, Refusal::Astray(0)),
        (1, 0, Refusal::Astray(1)),
    ];
    refuses_meddles(&rt, &mut direct(PutLog::new(), &TWO, 0)?, &cases);
    refuses_meddles(&rt, &mut relay(PutLog::new(), &TWO, 0)?, &cases);
    Ok(())
}

#[test]
fn with_f_two_a_third_craft_may_not_meddle(rt: HostRuntime) -> Result<(), Fail> {
    let rows = linked(7);
    let mut flight = direct(PutLog::new(), &rows[..7], 2)?;
    flight.meddle(6, 0, own(Step::Send, WORD))?;
    flight.meddle(5, 6, own(Step::Send, WORD))?;
    refuses_meddles(
        &rt,
        &mut flight,
        &[(4, 0, Refusal::Astray(4)), (4, 4, Refusal::NoLink(4))],
    );
    flight.meddle(6, 4, own(Step::Send, WORD))?;
    flight.meddle(5, 4, own(Step::Send, WORD))?;
    assert_eq!(rt; waiting(&rt, &mut flight), 4);
    Ok(())
}

#[test]
fn a_carry_is_refused_from_the_count_on(rt: HostRuntime) -> Result<(), Fail> {
    let mut flight = direct(PutLog::new(), &FOUR, 1)?;
    assert_eq!(rt; flight.carry(0).err(), by_carrier(Refusal::Index(0)));
    // a Send, and the Echo that follows at once, to three craft each
    flight.order_word(0, 0, WORD)?;
    for index in [6, 7, usize::MAX] {
        assert_eq!(rt; flight.carry(index).err(), by_carrier(Refusal::Index(6)));
    }
    assert!(rt; flight.carry(5)?.is_some());
    assert_eq!(rt; flight.carry(5).err(), by_carrier(Refusal::Index(5)));
    Ok(())
}

// What a collect answers, where it is refused.
fn refuses_collects<C: Carrier>(
    rt: &impl Abort,
    flight: &mut Flight<C, AnyMatter>,
    cases: &[(u8, u8, u8, Refusal)],
) {
    for &(craft, origin, number, want) in cases {
        match flight.collect(craft, origin, number) {
            Err(fault) => assert_eq!(rt; Some(fault), by_flight(want)),
            Ok(_slip) => panic!(rt; "collected {craft} {origin} {number}"),
        }
    }
}

// Nothing is delivered, then it is, then it is out, then it may be collected again, and then it is booked.
fn collects<C: Carrier>(rt: &impl Abort, flight: &mut Flight<C, AnyMatter>) -> Result<(), Fail> {
    let cases = [
        (4, 5, 6, Refusal::Label(4)),
        (0, 5, 6, Refusal::Label(5)),
        (0, 4, 6, Refusal::Label(4)),
        (0, 0, 6, Refusal::Number(6)),
        (0, 0, 4, Refusal::Number(4)),
        (1, 0, 3, Refusal::NoSlip(3)),
        (0, 1, 0, Refusal::NoSlip(0)),
    ];
    let none = [(1, 0, 0, Refusal::NoSlip(0))];
    refuses_collects(rt, flight, &cases);
    refuses_collects(rt, flight, &none);
    flight.order_word(0, 0, WORD)?;
    refuses_collects(rt, flight, &none);
    settle(rt, flight, 200)?;
    let slip = flight.collect(1, 0, 0)?;
    refuses_collects(rt, flight, &none);
    spent(rt, flight.put_back(slip));
    let slip = flight.collect(1, 0, 0)?;
    let mut book = [0; 28];
    spent(rt, flight.book(slip, &mut book, 0));
    assert_eq!(rt; &book, b"book 1 0 0 01012c000e100c01\n");
    refuses_collects(rt, flight, &none);
    refuses_collects(rt, flight, &cases);
    Ok(())
}

#[test]
fn a_collect_is_refused_by_the_first_cause(rt: HostRuntime) -> Result<(), Fail> {
    let mut list = room();
    collects(&rt, &mut direct(PutLog::new(), &FOUR, 1)?)?;
    collects(&rt, &mut relay(EntryList::new(&mut list), &FOUR, 1)?)
}
