// One record's call, its line, and the booking that follows a delivery.
ghost use Rattle.std.specs.Prelude.{◌≡◌, None, OnOk};
ghost use Rattle.agreement.specs.Flights.{order, carry, meddle};
ghost use Rattle.votes.specs.Deliveries.{delivery};
ghost use Rattle.flight.specs.Ledgers.{state_of};
ghost use Rattle.rehearsal.specs.Records.{call_as};
ghost use Rattle.rehearsal.specs.Texts.{outcome_text};
ghost use Rattle.rehearsal.specs.Runs.{given, Settled, Due, Called, Booked, Stepped};

use crate::answers::{Outcome, add_line};
use crate::records::Call;
use carriers::Carrier;
use flight::Flight;
use frames::{Booking, Frame};
use matter::Matter;
use std::alloc::{AllocError, Global};
use votes::Delivery;

// What a call answers: what its line says, and what is delivered by it.
#[derive(Clone, Copy)]
struct Answer {
    outcome: Outcome,
    delivery: Option<Delivery>,
}

// An answer by which nothing is delivered.
fn plain(outcome: Outcome) -> Answer
    ensures { result ≡ record { outcome = outcome; delivery = None } }
{
    Answer {
        outcome,
        delivery: None,
    }
}

fn order<C: Carrier, M: Matter + Drop>(
    flight: &mut Flight<C, M>,
    craft: u8,
    number: u8,
    word: u64,
) -> Answer
    ensures { Called C.meaning C.sound C.G M.kinds C.says C.carries C.meddles
        (order craft number word) (delivery result.delivery) (outcome_text result.outcome)
        flight.old flight.new }
{
    match flight.order_word(craft, number, word) {
        Ok(delivery) => Answer {
            outcome: Outcome::Done,
            delivery,
        },
        Err(fault) => plain(Outcome::Refused(fault)),
    }
}

fn carry<C: Carrier, M: Matter + Drop>(flight: &mut Flight<C, M>, index: usize) -> Answer
    ensures { Called C.meaning C.sound C.G M.kinds C.says C.carries C.meddles
        (carry index) (delivery result.delivery) (outcome_text result.outcome)
        flight.old flight.new }
{
    match flight.carry(index) {
        Ok(Some(hearing)) => Answer {
            outcome: Outcome::Heard(hearing.heard),
            delivery: hearing.delivery,
        },
        Ok(None) => plain(Outcome::Quiet),
        Err(fault) => plain(Outcome::Refused(fault)),
    }
}

fn meddle<C: Carrier, M: Matter + Drop>(
    flight: &mut Flight<C, M>,
    c: u8,
    to: u8,
    frame: Frame,
) -> Answer
    ensures { Called C.meaning C.sound C.G M.kinds C.says C.carries C.meddles
        (meddle c to frame) (delivery result.delivery) (outcome_text result.outcome)
        flight.old flight.new }
{
    match flight.meddle(c, to, frame) {
        Ok(()) => plain(Outcome::Done),
        Err(fault) => plain(Outcome::Refused(fault)),
    }
}

fn make_call<C: Carrier, M: Matter + Drop>(flight: &mut Flight<C, M>, call: &Call) -> Answer
    ensures { Called C.meaning C.sound C.G M.kinds C.says C.carries C.meddles
        (call_as call.now) (delivery result.delivery) (outcome_text result.outcome)
        flight.old flight.new }
{
    match *call {
        Call::Order(craft, number, word) => order(flight, craft, number, word),
        Call::Carry(index) => carry(flight, index),
        Call::Meddle(c, to, frame) => meddle(flight, c, to, frame),
    }
}

// The line by which a delivery is booked, which may be collected.
fn book<C: Carrier, M: Matter + Drop>(
    flight: &mut Flight<C, M>,
    delivery: &Delivery,
) -> [u8; Booking::LINE_LENGTH]
    requires { Due (state_of C.meaning flight.old) (given delivery.now) }
    ensures { Booked C.meaning C.sound C.G M.kinds C.says C.carries C.meddles
        (given delivery.now) result flight.old flight.new }
{
    let mut line = [0; Booking::LINE_LENGTH];
    let Ok(slip) = flight.collect(delivery.craft, delivery.origin, delivery.number) else {
        unreachable!()
    };
    let Err((slip, _)) = flight.book(slip, &mut line, 0) else {
        return line;
    };
    let Ok(()) = flight.put_back(slip) else {
        unreachable!()
    };
    unreachable!()
}

// One record's call, its line, and the booking of what it delivers.
pub(crate) fn step<C: Carrier, M: Matter + Drop>(
    alloc: Global,
    flight: &mut Flight<C, M>,
    count: usize,
    call: &Call,
    out: &mut Vec<u8>,
) -> Result<(), AllocError>
    requires sound { C.sound flight.old.carrier }
    requires settled { Settled (state_of C.meaning flight.old) }
    ensures { OnOk result (Stepped C.meaning C.sound C.G M.kinds C.says C.carries C.meddles
        (call_as call.now) count flight.old flight.new out.old.items out.new.items) }
{
    let answer = make_call(flight, call);
    add_line(alloc, count, &answer.outcome, out)?;
    if let Some(delivery) = answer.delivery {
        let booking = book(flight, &delivery);
        out.extend_from_slice(&booking)?;
    }
    Ok(())
}
