// Why a call of a flight is refused: the causes in the order in which they are tested.
ghost use Rattle.std.specs.Prelude.{◌<◌, ◌≤◌, ◌++◌, OnOk};
ghost use Rattle.sets.specs.Sets.{labels};
ghost use Rattle.frames.specs.Notes.{last_number};
ghost use Rattle.matter.specs.Layouts.{word_refusal};
ghost use Rattle.agreement.specs.Carrying.{meddle_causes};
ghost use Rattle.agreement.specs.Flights.{order, carry, word_cause, tight_causes, tight, causes};
ghost use Rattle.carriers.specs.Judging.{Judged};
ghost use Rattle.flight.specs.Ledgers.{state_of};

use crate::flight::Flight;
use carriers::Carrier;
use frames::LAST_NUMBER;
use matter::Matter;
use refusals::{Fault, Layer, Refusal};
use sets::contains;

// Whether a word is one of this matter; 11.
fn judge_word<M: Matter + Drop>(word: u64) -> Result<(), Fault>
    ensures { Judged (word_cause (word_refusal M.kinds word)) result }
{
    let _read = M::of_word(word)?;
    Ok(())
}

/// What has to be spare for an order, a carry or a meddle: room for what the call itself puts, for an Echo and for a Ready.
pub const LEAST_SPARE: usize = 3;

// Whether so much is spare; 8.
fn judge_room(spare: usize) -> Result<(), Fault>
    ensures { Judged (tight_causes spare) result }
{
    if spare < LEAST_SPARE {
        return Err(Layer::Flight.refuses(Refusal::Spare(spare)));
    }
    Ok(())
}

impl<C: Carrier, M: Matter + Drop> Flight<C, M> {
    // Whether an order is refused; 1, 5, 11, 6, 8.
    pub(crate) fn judge_order(&self, craft: u8, number: u8, word: u64) -> Result<(), Fault>
        ensures causes { Judged
            (causes M.kinds (state_of C.meaning self.now) (order craft number word)) result }
        ensures label { OnOk result (craft < (C.meaning self.now.carrier).n) }
        ensures few { OnOk result (craft < labels) }
        ensures number { OnOk result (number ≤ last_number) }
    {
        if craft >= self.carrier.craft() {
            return Err(Layer::Flight.refuses(Refusal::Label(craft)));
        }
        if number > LAST_NUMBER {
            return Err(Layer::Flight.refuses(Refusal::Number(number)));
        }
        judge_word::<M>(word)?;
        if contains(self.ordered[craft as usize], number) {
            return Err(Layer::Flight.refuses(Refusal::Ordered(number)));
        }
        judge_room(self.carrier.spare())
    }

    // Whether a carry is refused; what the carrier refuses, room aside (7), and 8.
    pub(crate) fn judge_carry(&self, index: usize) -> Result<(), Fault>
        ensures { Judged (causes M.kinds (state_of C.meaning self.now) (carry index)) result }
    {
        self.carrier.judge_carry(index)?;
        judge_room(self.carrier.spare())
    }

    // Whether a meddle is refused, whatever the frame; what the carrier refuses, room aside (1, 1, 9, 10), and 8.
    pub(crate) fn judge_meddle(&self, c: u8, to: u8) -> Result<(), Fault>
        ensures { Judged (meddle_causes (C.meaning self.now.carrier) c to
            ++ tight (state_of C.meaning self.now)) result }
    {
        self.carrier.judge_meddle(c, to)?;
        judge_room(self.carrier.spare())
    }
}
