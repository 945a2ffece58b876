// Slips: what a book and a put back answer, what they leave of the buffer, and slips of another flight.
use crate::client::book_first;
use crate::given::{OTHER_WORD, TWO, WORD, by_flight, direct, refused, relay, room, settle, spent};
use carriers::Carrier;
use flight::Flight;
use frames::AnyMatter;
use links::EntryList;
use putlog::PutLog;
use refusals::{Layer, Refusal};
use std::process::Abort;
use std::test::Fail;
use votes::Delivery;

// What stands in a buffer before.
const BLANK: [u8; 40] = [0xaa; 40];

// Craft 0 orders the word under number 2, and both have it delivered.
fn deliver<C: Carrier>(
    rt: &impl Abort,
    flight: &mut Flight<C, AnyMatter>,
    word: u64,
) -> Result<(), Fail> {
    assert_eq!(rt; flight.order_word(0, 2, word)?, None);
    assert_eq!(rt; settle(rt, flight, 10)?, 5);
    Ok(())
}

// Places from which the line does not fit into the buffer, each with the length that it needs: the place and 28,
// or the greatest value that there is.
const TOO_FAR: [(usize, usize); 6] = [
    (13, 41),
    (40, 68),
    (41, 69),
    (usize::MAX - 29, usize::MAX - 1),
    (usize::MAX - 27, usize::MAX),
    (usize::MAX, usize::MAX),
];

// The slip comes back from each place that is too far, with the buffer as it was, and is spent at the last that is not.
fn books_in_place<C: Carrier>(
    rt: &impl Abort,
    flight: &mut Flight<C, AnyMatter>,
) -> Result<(), Fail> {
    deliver(rt, flight, WORD)?;
    let mut buffer = BLANK;
    let mut slip = flight.collect(1, 0, 2)?;
    for &(at, needed) in &TOO_FAR {
        let want = Some(Layer::Frames.refuses(Refusal::Short(needed)));
        slip = refused(rt, flight.book(slip, &mut buffer, at), want);
        assert_eq!(rt; buffer, BLANK);
    }
    let want = Some(Layer::Frames.refuses(Refusal::Short(28)));
    slip = refused(rt, flight.book(slip, &mut [], 0), want);
    spent(rt, flight.book(slip, &mut buffer, 12));
    assert_eq!(rt; &buffer[..12], &BLANK[..12]);
    assert_eq!(rt; &buffer[12..], b"book 1 0 2 01012c000e100c01\n".as_slice());
    Ok(())
}

// A planner's code gets the slip of a delivery back where its buffer has no room for the line, and can book it again.
#[test]
fn a_planner_has_its_slip_back(rt: HostRuntime) -> Result<(), Fail> {
    let mut flight = direct(PutLog::new(), &TWO, 0)?;
    deliver(&rt, &mut flight, WORD)?;
    let delivery = Delivery {
        word: WORD,
        craft: 1,
        origin: 0,
        number: 2,
    };
    let want = Some(Layer::Frames.refuses(Refusal::Short(28)));
    let slip = refused(&rt, book_first(&mut flight, &delivery, &mut [])?, want);
    spent(&rt, flight.put_back(slip));
    let mut line = [0; 28];
    spent(&rt, book_first(&mut flight, &delivery, &mut line)?);
    assert_eq!(rt; &line, b"book 1 0 2 01012c000e100c01\n");
    Ok(())
}

#[test]
fn a_line_is_written_into_its_place_alone(rt: HostRuntime) -> Result<(), Fail> {
    let mut list = room();
    books_in_place(&rt, &mut direct(PutLog::new(), &TWO, 0)?)?;
    books_in_place(&rt, &mut relay(EntryList::new(&mut list), &TWO, 0)?)
}

// A slip that is not out here: neither a book, even with no room for the line, nor a put back takes it,
// and the flight that it came from does.
fn hands_back<A: Carrier, B: Carrier>(
    rt: &impl Abort,
    a: &mut Flight<A, AnyMatter>,
    b: &mut Flight<B, AnyMatter>,
) -> Result<(), Fail> {
    let none = by_flight(Refusal::NoSlip(2));
    let mut buffer = BLANK;
    deliver(rt, a, WORD)?;
    let slip = a.collect(1, 0, 2)?;
    // nothing is delivered in the other flight
    let slip = refused(rt, b.book(slip, &mut buffer, 0), none);
    let slip = refused(rt, b.book(slip, &mut buffer, usize::MAX), none);
    let slip = refused(rt, b.put_back(slip), none);
    spent(rt, a.put_back(slip));
    // something is, and is not out
    deliver(rt, b, OTHER_WORD)?;
    let slip = a.collect(1, 0, 2)?;
    let slip = refused(rt, b.book(slip, &mut buffer, 0), none);
    let slip = refused(rt, b.put_back(slip), none);
    assert_eq!(rt; buffer, BLANK);
    spent(rt, a.book(slip, &mut buffer, 0));
    assert_eq!(rt; &buffer[..28], b"book 1 0 2 01012c000e100c01\n".as_slice());
    assert_eq!(rt; &buffer[28..], &BLANK[28..]);
    Ok(())
}

// Two flights with the same labels out: each books its own word by the slip of the other, once.
fn swaps<A: Carrier, B: Carrier>(
    rt: &impl Abort,
    a: &mut Flight<A, AnyMatter>,
    b: &mut Flight<B, AnyMatter>,
) -> Result<(), Fail> {
    let none = by_flight(Refusal::NoSlip(2));
    let mut book = [0; 28];
    let of_a = a.collect(0, 0, 2)?;
    // a fault is no way out while the slip lives
    let of_b = match b.collect(0, 0, 2) {
        Ok(slip) => slip,
        Err(fault) => panic!(rt; "{fault}"),
    };
    spent(rt, a.book(of_b, &mut book, 0));
    assert_eq!(rt; &book, b"book 0 0 2 01012c000e100c01\n");
    // booked here, and out there
    let of_a = refused(rt, a.book(of_a, &mut book, 0), none);
    let of_a = refused(rt, a.put_back(of_a), none);
    assert_eq!(rt; &book, b"book 0 0 2 01012c000e100c01\n");
    spent(rt, b.book(of_a, &mut book, 0));
    assert_eq!(rt; &book, b"book 0 0 2 01012d000e100c01\n");
    Ok(())
}

#[test]
fn a_slip_of_another_flight_books_this_flights_word(rt: HostRuntime) -> Result<(), Fail> {
    let mut list = room();
    let mut a = direct(PutLog::new(), &TWO, 0)?;
    let mut b = relay(EntryList::new(&mut list), &TWO, 0)?;
    hands_back(&rt, &mut a, &mut b)?;
    swaps(&rt, &mut a, &mut b)
}
