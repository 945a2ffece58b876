// The steps of a flight by which craft order, carry and meddle.
ghost use Rattle.agreement.specs.Flights.{Answered};
ghost use Rattle.flight.specs.Exact.{Exactly};
ghost use Rattle.flight.specs.Ledgers.{state_of, order_event, carry_event, meddle_event};

use crate::flight::{Flight, Hearing};
use crate::marking::mark;
use carriers::Carrier;
use frames::{Frame, Note, Step};
use matter::Matter;
use refusals::Fault;
use votes::Delivery;

impl<C: Carrier, M: Matter + Drop> Flight<C, M> {
    // The craft orders the word under a number; 1, 5, 11, 6, 8.
    pub(crate) fn step_order(
        &mut self,
        craft: u8,
        number: u8,
        word: u64,
    ) -> Result<Option<Delivery>, Fault>
        ensures step { C.sound self.old.carrier → Answered C.G M.kinds (state_of C.meaning self.old)
            (order_event craft number word result) (state_of C.meaning self.new)
            × C.sound self.new.carrier }
        ensures exact { C.sound self.old.carrier → Exactly C.meaning C.says C.carries C.meddles
            self.old (order_event craft number word result) self.new }
    {
        self.judge_order(craft, number, word)?;
        let note = Note {
            content: word,
            step: Step::Send,
            origin: craft,
            number,
        };
        self.carrier.say(craft, note)?;
        mark(&mut self.ordered, craft, number);
        self.vote(craft, craft, &note)
    }

    // The frame that waits at an index is carried, and whoever hears by it votes; 7, 8.
    pub(crate) fn step_carry(&mut self, index: usize) -> Result<Option<Hearing>, Fault>
        ensures step { C.sound self.old.carrier → Answered C.G M.kinds (state_of C.meaning self.old)
            (carry_event index result) (state_of C.meaning self.new)
            × C.sound self.new.carrier }
        ensures exact { C.sound self.old.carrier → Exactly C.meaning C.says C.carries C.meddles
            self.old (carry_event index result) self.new }
    {
        self.judge_carry(index)?;
        let Some(heard) = self.carrier.carry(index)? else {
            return Ok(None);
        };
        let delivery = self.vote(heard.listener, heard.author, &heard.note)?;
        Ok(Some(Hearing { heard, delivery }))
    }

    // Craft c puts any frame to a neighbour, and is astray from then on; 1 of c, 1 of the other, 9, 10, 8.
    pub(crate) fn step_meddle(&mut self, c: u8, to: u8, frame: Frame) -> Result<(), Fault>
        ensures step { C.sound self.old.carrier → Answered C.G M.kinds (state_of C.meaning self.old)
            (meddle_event c to frame result) (state_of C.meaning self.new)
            × C.sound self.new.carrier }
        ensures exact { C.sound self.old.carrier → Exactly C.meaning C.says C.carries C.meddles
            self.old (meddle_event c to frame result) self.new }
    {
        self.judge_meddle(c, to)?;
        self.carrier.meddle(c, to, frame)
    }
}
