// Lists of commands: the listing of two craft as one list, lists of another length than their answers, bookings that find no room.
use crate::given::{TWO, WORD, direct, own, relay, room, waiting};
use crate::two_craft::{delivered, hears};
use carriers::{Carrier, Direct, OpenedCarrier};
use cuts::{open_direct, open_relay};
use flight::{Answer, Command, Flight, execute_all, fly};
use frames::{AnyMatter, Step};
use links::{EntryList, LinkService};
use putlog::PutLog;
use refusals::{Fault, Layer, Refusal};
use relay::Relay;
use std::process::Abort;
use std::test::Fail;

// Stands in a list of answers before.
const BLANK: Answer = Answer::Meddled(Ok(()));

// Craft 0 orders; each delivery is booked next, the second line behind the first; and a meddle is refused, since f is 0.
fn commands() -> [Command; 10] {
    [
        Command::Order(0, 0, WORD),
        Command::Carry(0),
        Command::Carry(0),
        Command::Book(1, 0, 0, 0),
        Command::Carry(0),
        Command::Book(0, 0, 0, 28),
        Command::Meddle(1, 0, own(Step::Send, WORD)),
        Command::Carry(0),
        Command::Carry(0),
        Command::Carry(0),
    ]
}

fn answers() -> [Answer; 10] {
    let astray = Fault {
        layer: Layer::Carriers,
        refusal: Refusal::Astray(1),
    };
    let nothing_waits = Fault {
        layer: Layer::Carriers,
        refusal: Refusal::Index(0),
    };
    [
        Answer::Ordered(Ok(None)),
        Answer::Carried(Ok(hears(1, 0, Step::Send, None))),
        Answer::Carried(Ok(hears(1, 0, Step::Echo, delivered(1)))),
        Answer::Booked(Ok(())),
        Answer::Carried(Ok(hears(0, 1, Step::Echo, delivered(0)))),
        Answer::Booked(Ok(())),
        Answer::Meddled(Err(astray)),
        Answer::Carried(Ok(hears(0, 1, Step::Ready, None))),
        Answer::Carried(Ok(hears(1, 0, Step::Ready, None))),
        Answer::Carried(Err(nothing_waits)),
    ]
}

// The lines of both craft, and four bytes that nothing is written to.
const BOOKED: &[u8; 60] = b"book 1 0 0 01012c000e100c01\nbook 0 0 0 01012c000e100c01\n\0\0\0\0";

// A flight is opened, and executes the list.
fn flies<C: OpenedCarrier>(rt: &impl Abort, from: C::From) -> Result<Flight<C, AnyMatter>, Fail> {
    let mut told = [BLANK; 10];
    let mut buffer = [0; 60];
    let flight = fly(from, &commands(), &mut told, &mut buffer)?;
    assert_eq!(rt; told, answers());
    assert_eq!(rt; &buffer, BOOKED);
    Ok(flight)
}

#[test]
fn a_list_gives_the_listing(rt: HostRuntime) -> Result<(), Fail> {
    let mut list = room();
    let complete = open_direct(&TWO, 0)?;
    let passed = open_relay(&TWO, 0)?;
    let _flight = flies::<Direct<PutLog>>(&rt, (PutLog::new(), complete))?;
    let _flight = flies::<Direct<EntryList>>(&rt, (EntryList::new(&mut list), complete))?;
    let _flight = flies::<Relay<PutLog>>(&rt, (PutLog::new(), passed))?;
    let _flight = flies::<Relay<EntryList>>(&rt, (EntryList::new(&mut list), passed))?;
    Ok(())
}

// Too short a list for the link service: no command is executed.
fn open_refused<L: LinkService + Drop>(
    rt: &impl Abort,
    links: L,
    needed: usize,
) -> Result<(), Fail> {
    let from = (links, open_direct(&TWO, 0)?);
    let mut told = [BLANK; 10];
    let mut buffer = [0; 60];
    let flown = fly::<Direct<L>, AnyMatter>(from, &commands(), &mut told, &mut buffer);
    assert_eq!(rt;
        flown.err(),
        Some(Layer::Links.refuses(Refusal::Short(needed)))
    );
    assert_eq!(rt; told, [BLANK; 10]);
    assert_eq!(rt; buffer, [0; 60]);
    Ok(())
}

#[test]
fn a_refused_opening_answers_nothing(rt: HostRuntime) -> Result<(), Fail> {
    let mut list = room();
    open_refused(&rt, EntryList::new(&mut list[0..1007]), 1008)
}

// Three commands of which two find room for their answers, and one command with room for two.
#[test]
fn as_many_are_executed_as_answers_fit(rt: HostRuntime) -> Result<(), Fail> {
    let mut flight = direct(PutLog::new(), &TWO, 0)?;
    let mut two = [BLANK; 2];
    let count = execute_all(&mut flight, &commands()[..3], &mut two, &mut []);
    assert_eq!(rt; count, 2);
    assert_eq!(rt; two.as_slice(), &answers()[..2]);
    // the Echo of each craft
    assert_eq!(rt; waiting(&rt, &mut flight), 2);
    let mut two = [BLANK; 2];
    let count = execute_all(&mut flight, &commands()[2..3], &mut two, &mut []);
    assert_eq!(rt; count, 1);
    assert_eq!(rt; two, [answers()[2], BLANK]);
    assert_eq!(rt; execute_all(&mut flight, &[], &mut two, &mut []), 0);
    assert_eq!(rt; execute_all(&mut flight, &commands(), &mut [], &mut []), 0);
    Ok(())
}

// A booking that finds no room puts its slip back, so that it may be booked again, and that once.
#[test]
fn a_booking_without_room_may_be_done_again(rt: HostRuntime) -> Result<(), Fail> {
    let mut flight = direct(PutLog::new(), &TWO, 0)?;
    let mut told = [BLANK; 3];
    let mut buffer = [0; 40];
    let count = execute_all(&mut flight, &commands()[..3], &mut told, &mut buffer);
    assert_eq!(rt; count, 3);
    let mut book = |at| flight.execute(&Command::Book(1, 0, 0, at), &mut buffer);
    let short = Layer::Frames.refuses(Refusal::Short(41));
    assert_eq!(rt; book(13), Answer::Booked(Err(short)));
    assert_eq!(rt; book(12), Answer::Booked(Ok(())));
    let none = Layer::Flight.refuses(Refusal::NoSlip(0));
    assert_eq!(rt; book(12), Answer::Booked(Err(none)));
    assert_eq!(rt; &buffer[..12], [0; 12].as_slice());
    assert_eq!(rt; &buffer[12..], b"book 1 0 0 01012c000e100c01\n".as_slice());
    Ok(())
}
