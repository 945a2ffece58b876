// The steps of a flight by which deliveries are collected and booked.
ghost use Rattle.std.specs.Prelude.{◌≡◌, ℕ, ◌<◌, ◌≤◌, OnOk};
ghost use Rattle.sets.specs.Sets.{labels};
ghost use Rattle.frames.specs.Notes.{last_number};
ghost use Rattle.agreement.specs.Flights.{Answered, collect, causes};
ghost use Rattle.carriers.specs.Judging.{Judged};
ghost use Rattle.flight.specs.Ledgers.{state_of};
ghost use Rattle.flight.specs.Slips.{collect_event, book_event, return_event};
ghost use Rattle.flight.specs.Slips.{Collected, RefusedBook, GivenBack};

use crate::flight::Flight;
use crate::slips::Slip;
use carriers::Carrier;
use frames::{Booking, LAST_NUMBER};
use matter::Matter;
use refusals::{Fault, Layer, Refusal};
use votes::Place;

impl<C: Carrier, M: Matter + Drop> Flight<C, M> {
    // Whether a collect is refused; 1 of the craft, 1 of the origin, 5, 12.
    fn judge_collect(&self, craft: u8, origin: u8, number: u8) -> Result<(), Fault>
        ensures causes { Judged
            (causes M.kinds (state_of C.meaning self.now) (collect craft origin number)) result }
        ensures craft { OnOk result (craft < labels) }
        ensures origin { OnOk result (origin < labels) }
        ensures number { OnOk result (number ≤ last_number) }
    {
        let n = self.carrier.craft();
        if craft >= n {
            return Err(Layer::Flight.refuses(Refusal::Label(craft)));
        }
        if origin >= n {
            return Err(Layer::Flight.refuses(Refusal::Label(origin)));
        }
        if number > LAST_NUMBER {
            return Err(Layer::Flight.refuses(Refusal::Number(number)));
        }
        if !self.table.votes(craft, origin, number).place.is_held() {
            return Err(Layer::Flight.refuses(Refusal::NoSlip(number)));
        }
        Ok(())
    }

    // A slip for a delivery that is neither out nor booked; 1, 1, 5, 12.
    pub(crate) fn step_collect(&mut self, craft: u8, origin: u8, number: u8) -> Result<Slip, Fault>
        ensures step { Answered C.G M.kinds (state_of C.meaning self.old)
            (collect_event craft origin number result) (state_of C.meaning self.new) }
        ensures carrier { self.new.carrier ≡ self.old.carrier }
        ensures slip { Collected craft origin number result }
    {
        self.judge_collect(craft, origin, number)?;
        self.table.move_to(craft, origin, number, Place::Out);
        Ok(Slip {
            craft,
            origin,
            number,
            spent: false,
        })
    }

    // The slip is spent, and the line of this flight's word for its labels is written at the place; 12, 13. Refused, the slip comes back.
    pub(crate) fn step_book(
        &mut self,
        mut slip: Slip,
        buffer: &mut [u8],
        at: usize,
    ) -> Result<(), (Slip, Fault)>
        ensures step { Answered C.G M.kinds (state_of C.meaning self.old)
            (book_event slip at buffer.old result buffer.new) (state_of C.meaning self.new) }
        ensures carrier { self.new.carrier ≡ self.old.carrier }
        ensures refused { RefusedBook slip buffer.old result buffer.new }
    {
        let votes = self.table.votes(slip.craft, slip.origin, slip.number);
        let Some(word) = votes.out() else {
            let number = slip.number;
            return Err((slip, Layer::Flight.refuses(Refusal::NoSlip(number))));
        };
        let booking = Booking {
            craft: slip.craft,
            origin: slip.origin,
            number: slip.number,
            word,
        };
        if let Err(fault) = booking.write_at(buffer, at) {
            return Err((slip, fault));
        }
        self.table
            .move_to(slip.craft, slip.origin, slip.number, Place::Booked);
        slip.spent = true;
        Ok(())
    }

    // The slip is spent, and its delivery may be collected again; 12. Refused, the slip comes back.
    pub(crate) fn step_put_back(&mut self, mut slip: Slip) -> Result<(), (Slip, Fault)>
        ensures step { Answered C.G M.kinds (state_of C.meaning self.old)
            (return_event slip result) (state_of C.meaning self.new) }
        ensures carrier { self.new.carrier ≡ self.old.carrier }
        ensures slip { GivenBack slip result }
    {
        let votes = self.table.votes(slip.craft, slip.origin, slip.number);
        if !votes.place.is_out() {
            let number = slip.number;
            return Err((slip, Layer::Flight.refuses(Refusal::NoSlip(number))));
        }
        self.table
            .move_to(slip.craft, slip.origin, slip.number, Place::Held);
        slip.spent = true;
        Ok(())
    }
}
