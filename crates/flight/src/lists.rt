// Lists of commands, which a flight executes one after the other.
use crate::flight::{Flight, Hearing};
use carriers::Carrier;
use frames::Frame;
use matter::Matter;
use refusals::Fault;
use votes::Delivery;

/// What may be asked of a flight. A booking collects a delivery and books it; where the line finds no room, its slip is put back.
#[derive(Clone, Copy, PartialEq, Eq, Debug)]
pub enum Command {
    /// Craft, number and word.
    Order(u8, u8, u64),
    /// The index of a waiting frame.
    Carry(usize),
    /// The craft that meddles, the neighbour that it meddles to, and the frame.
    Meddle(u8, u8, Frame),
    /// Craft, origin and number, and the place in the buffer.
    Book(u8, u8, u8, usize),
}

/// What came of a command. Of a booking, what refused it: the collect, or the book, whose slip was put back.
#[derive(Clone, Copy, PartialEq, Eq, Debug)]
pub enum Answer {
    /// The delivery to the craft that ordered.
    Ordered(Result<Option<Delivery>, Fault>),
    /// Who heard what, and what was delivered by it.
    Carried(Result<Option<Hearing>, Fault>),
    /// Whether the frame was put.
    Meddled(Result<(), Fault>),
    /// Whether the line was written.
    Booked(Result<(), Fault>),
}

impl<C: Carrier, M: Matter + Drop> Flight<C, M> {
    ghost use Rattle.flight.specs.Lists.{Executed};

    // Collects and books, or puts back.
    fn collect_and_book(
        &mut self,
        craft: u8,
        origin: u8,
        number: u8,
        buffer: &mut [u8],
        at: usize,
    ) -> Result<(), Fault>
        ensures { Executed C.meaning C.sound C.G M.kinds C.says C.carries C.meddles
            self.old buffer.old (Command.Book craft origin number at)
            (Answer.Booked result) self.new buffer.new }
    {
        let slip = match self.collect(craft, origin, number) {
            Ok(slip) => slip,
            Err(fault) => return Err(fault),
        };
        let Err((slip, fault)) = self.book(slip, buffer, at) else {
            return Ok(());
        };
        let Ok(()) = self.put_back(slip) else {
            unreachable!()
        };
        Err(fault)
    }

    /// Executes a command. It is one call of the flight, but a booking, which is up to three.
    pub fn execute(&mut self, command: &Command, buffer: &mut [u8]) -> Answer
        ensures { Executed C.meaning C.sound C.G M.kinds C.says C.carries C.meddles
            self.old buffer.old command.now result self.new buffer.new }
    {
        match *command {
            Command::Order(craft, number, word) => {
                Answer::Ordered(self.order_word(craft, number, word))
            }
            Command::Carry(index) => Answer::Carried(self.carry(index)),
            Command::Meddle(craft, to, frame) => Answer::Meddled(self.meddle(craft, to, frame)),
            Command::Book(craft, origin, number, at) => {
                Answer::Booked(self.collect_and_book(craft, origin, number, buffer, at))
            }
        }
    }
}
