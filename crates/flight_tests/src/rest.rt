// One order, carried to rest by index 0: how many carries that takes, and that every craft has the delivery.
use crate::given::{FIVE, FOUR, TWO, WORD, direct, line, linked, relay, room, settle, waiting};
use carriers::Carrier;
use flight::Flight;
use frames::AnyMatter;
use links::EntryList;
use putlog::PutLog;
use std::process::Abort;
use std::test::Fail;

// Craft 0 orders among n, and books as every other does. Answers how many carries there were.
fn carries<C: Carrier>(
    rt: &impl Abort,
    flight: &mut Flight<C, AnyMatter>,
    n: u8,
) -> Result<usize, Fail> {
    assert_eq!(rt; flight.order_word(0, 0, WORD)?, None);
    let carried = settle(rt, flight, 1000)?;
    assert_eq!(rt; waiting(rt, flight), 0);
    for craft in 0..n {
        let book = line(rt, flight, craft, 0, 0)?;
        assert_eq!(rt; &book[7..28], b"0 0 01012c000e100c01\n".as_slice());
        assert_eq!(rt; book[5], b'0'.saturating_add(craft));
    }
    Ok(carried)
}

// A Send, and an Echo and a Ready by each of N craft, go to N − 1 each. N, f and (N − 1) · (2N + 1):
const FLIGHTS: [(u8, u8, usize); 7] = [
    (2, 0, 5),
    (3, 0, 14),
    (4, 1, 27),
    (5, 1, 44),
    (6, 1, 65),
    (7, 2, 90),
    (8, 2, 119),
];

#[test]
fn an_order_comes_to_rest_over_direct(rt: HostRuntime) -> Result<(), Fail> {
    for &(n, f, want) in &FLIGHTS {
        let rows = linked(n);
        let mut flight = direct(PutLog::new(), &rows[..usize::from(n)], f)?;
        assert_eq!(rt; carries(&rt, &mut flight, n)?, want, "{n} craft");
    }
    let mut list = room();
    let mut flight = direct(EntryList::new(&mut list), &FOUR, 1)?;
    assert_eq!(rt; carries(&rt, &mut flight, 4)?, 27);
    Ok(())
}

// What a craft hears makes it say the next note while others are on their way. The carries are as many as where all notes are said at once,
// which a model of the relay in another language has counted.
#[test]
fn an_order_comes_to_rest_over_the_relay(rt: HostRuntime) -> Result<(), Fail> {
    let mut list = room();
    let mut two = relay(PutLog::new(), &TWO, 0)?;
    assert_eq!(rt; carries(&rt, &mut two, 2)?, 5);
    let mut four = relay(PutLog::new(), &FOUR, 1)?;
    assert_eq!(rt; carries(&rt, &mut four, 4)?, 81);
    let mut five = relay(EntryList::new(&mut list), &FIVE, 1)?;
    assert_eq!(rt; carries(&rt, &mut five, 5)?, 159);
    let mut eight = relay(PutLog::new(), &linked(8), 2)?;
    assert_eq!(rt; carries(&rt, &mut eight, 8)?, 833);
    Ok(())
}
