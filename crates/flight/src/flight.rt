// A flight, and its calls. Of each call three things are said. `call`: the step that it takes, in the meaning of the flight's carrier, refusals included.
// `exact`: what it does to the carrier itself, in the carrier's own relations. `promise`: whatever calls led to the flight, they and this one lead to the
// flight after it, and after them any two craft that are not astray agree.
use crate::slips::Slip;
use carriers::{Carrier, Heard};
use frames::{Frame, LAST_NUMBER};
use matter::Matter;
use refusals::Fault;
use std::marker::PhantomData;
use votes::{Delivery, LABEL_COUNT, Table};

// How many orders a craft can make; of each, every craft says an Echo and a Ready at most.
const NUMBERS: u32 = LAST_NUMBER as u32 + 1;

/// What a carry lets a craft hear, and what is delivered to that craft by it.
#[derive(Clone, Copy, PartialEq, Eq, Debug)]
pub struct Hearing {
    /// Who heard which note of whom.
    pub heard: Heard,
    /// What the listener's votes then deliver to it.
    pub delivery: Option<Delivery>,
}

/// A flight over a carrier, with all its craft, for matter of one type: the object of the promise, for the ground. A satellite has one craft's part.
#[derive(Drop)]
pub struct Flight<C, M> {
    pub(crate) carrier: C,
    // The votes of all craft, and where each delivery is.
    pub(crate) table: Table,
    // By craft, the set of the numbers that it has ordered under: bit i is for number i.
    pub(crate) ordered: [u8; LABEL_COUNT],
    pub(crate) matter: PhantomData<M>,
}

impl<C: Carrier, M: Matter + Drop> Flight<C, M> {
    ghost use Rattle.std.specs.Prelude.{◌≡◌, None};
    ghost use Rattle.matter.specs.Layouts.{word_of, word_refusal};
    ghost use Rattle.agreement.specs.Flights.{Answered, flight_toil};
    ghost use Rattle.flight.specs.Ledgers.{state_of, order_event, carry_event, meddle_event, Calls};
    ghost use Rattle.flight.specs.Exact.{Exactly};
    ghost use Rattle.flight.specs.Lives.{Opens, Promises};
    ghost use Rattle.flight.specs.Slips.{collect_event, book_event, return_event};
    ghost use Rattle.flight.specs.Slips.{Collected, RefusedBook, GivenBack};

    /// A flight over a carrier, in which nothing is voted, ordered, out or booked. Over a carrier that was opened just now its life begins:
    /// that the carrier is fresh and sound is what the carrier's own opening gives.
    pub fn open(carrier: C) -> Flight<C, M>
        ensures { Opens C.meaning C.sound C.G M.kinds carrier result }
    {
        Flight {
            carrier,
            table: Table::new(),
            ordered: [0; LABEL_COUNT],
            matter: PhantomData,
        }
    }

    /// The carrier that the flight is over.
    pub fn carrier(&self) -> &C
        ensures { result.now ≡ self.now.carrier }
    {
        &self.carrier
    }

    /// The flight's toil: of the carries that follow, with no other call between them, no more are accepted.
    /// It is the carrier's toil, and its G for each Echo and Ready that is not said yet.
    pub fn toil(&self) -> u128
        ensures { result ≡ flight_toil C.G (state_of C.meaning self.now) }
    {
        let n = self.carrier.craft();
        let notes = 2 * NUMBERS * (u32::from(n) * u32::from(n));
        let unsaid = notes.saturating_sub(self.table.said(n));
        self.carrier.toil() + u128::from(C::G) * u128::from(unsaid)
    }

    /// The craft orders a word under a number; 1, 5, 11, 6, 8.
    pub fn order_word(
        &mut self,
        craft: u8,
        number: u8,
        word: u64,
    ) -> Result<Option<Delivery>, Fault>
        ensures call { Calls C.meaning C.sound C.G M.kinds
            self.old (order_event craft number word result) self.new }
        ensures exact { C.sound self.old.carrier → Exactly C.meaning C.says C.carries C.meddles
            self.old (order_event craft number word result) self.new }
        ensures promise { Promises C.meaning C.sound C.G M.kinds
            self.old (order_event craft number word result) self.new }
    {
        self.step_order(craft, number, word)
    }

    /// The craft orders matter under a number; 1, 5, 6, 8, and never 11, since the word of matter is a word of its kind.
    pub fn order(&mut self, craft: u8, number: u8, matter: &M) -> Result<Option<Delivery>, Fault>
        ensures call { let word = word_of (M.kind matter.now) (M.fields matter.now) in
            Calls C.meaning C.sound C.G M.kinds
            self.old (order_event craft number word result) self.new }
        ensures exact { let word = word_of (M.kind matter.now) (M.fields matter.now) in
            C.sound self.old.carrier → Exactly C.meaning C.says C.carries C.meddles
            self.old (order_event craft number word result) self.new }
        ensures promise { let word = word_of (M.kind matter.now) (M.fields matter.now) in
            Promises C.meaning C.sound C.G M.kinds
            self.old (order_event craft number word result) self.new }
        ensures in_range { word_refusal M.kinds
            (word_of (M.kind matter.now) (M.fields matter.now)) ≡ None }
    {
        self.order_word(craft, number, matter.word())
    }

    /// The frame that waits at an index is carried, and whoever hears by it votes; 7, 8.
    pub fn carry(&mut self, index: usize) -> Result<Option<Hearing>, Fault>
        ensures call { Calls C.meaning C.sound C.G M.kinds
            self.old (carry_event index result) self.new }
        ensures exact { C.sound self.old.carrier → Exactly C.meaning C.says C.carries C.meddles
            self.old (carry_event index result) self.new }
        ensures promise { Promises C.meaning C.sound C.G M.kinds
            self.old (carry_event index result) self.new }
    {
        self.step_carry(index)
    }

    /// Craft c puts any frame to a neighbour, and is astray from then on; 1 of c, 1 of the other, 9, 10, 8.
    pub fn meddle(&mut self, c: u8, to: u8, frame: Frame) -> Result<(), Fault>
        ensures call { Calls C.meaning C.sound C.G M.kinds
            self.old (meddle_event c to frame result) self.new }
        ensures exact { C.sound self.old.carrier → Exactly C.meaning C.says C.carries C.meddles
            self.old (meddle_event c to frame result) self.new }
        ensures promise { Promises C.meaning C.sound C.G M.kinds
            self.old (meddle_event c to frame result) self.new }
    {
        self.step_meddle(c, to, frame)
    }

    /// A slip for a delivery that is neither out nor booked; 1 of the craft, 1 of the origin, 5, 12.
    pub fn collect(&mut self, craft: u8, origin: u8, number: u8) -> Result<Slip, Fault>
        ensures call { Answered C.G M.kinds (state_of C.meaning self.old)
            (collect_event craft origin number result) (state_of C.meaning self.new) }
        ensures exact { self.new.carrier ≡ self.old.carrier }
        ensures promise { Promises C.meaning C.sound C.G M.kinds
            self.old (collect_event craft origin number result) self.new }
        ensures slip { Collected craft origin number result }
    {
        self.step_collect(craft, origin, number)
    }

    /// The slip is spent, and the line of this flight's word for its labels is written into the part of the buffer that starts at a place; 12, 13.
    /// Where it is refused, the slip comes back.
    pub fn book(&mut self, slip: Slip, buffer: &mut [u8], at: usize) -> Result<(), (Slip, Fault)>
        ensures call { Answered C.G M.kinds (state_of C.meaning self.old)
            (book_event slip at buffer.old result buffer.new) (state_of C.meaning self.new) }
        ensures exact { self.new.carrier ≡ self.old.carrier }
        ensures promise { Promises C.meaning C.sound C.G M.kinds
            self.old (book_event slip at buffer.old result buffer.new) self.new }
        ensures refused { RefusedBook slip buffer.old result buffer.new }
    {
        self.step_book(slip, buffer, at)
    }

    /// The slip is spent, and its delivery may be collected again; 12. Where it is refused, the slip comes back.
    pub fn put_back(&mut self, slip: Slip) -> Result<(), (Slip, Fault)>
        ensures call { Answered C.G M.kinds (state_of C.meaning self.old)
            (return_event slip result) (state_of C.meaning self.new) }
        ensures exact { self.new.carrier ≡ self.old.carrier }
        ensures promise { Promises C.meaning C.sound C.G M.kinds
            self.old (return_event slip result) self.new }
        ensures slip { GivenBack slip result }
    {
        self.step_put_back(slip)
    }
}
