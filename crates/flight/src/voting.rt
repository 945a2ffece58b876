// A craft votes on what it hears.
ghost use Rattle.std.specs.Prelude.{◌≡◌, ◌<◌, ◌≤◌, OnOk};
ghost use Rattle.frames.specs.Notes.{last_number};
ghost use Rattle.flight.specs.Exact.{Spoke};
ghost use Rattle.flight.specs.Ledgers.{state_of};
ghost use Rattle.flight.specs.Voting.{Votes};

use crate::flight::Flight;
use crate::speaking::speak;
use carriers::Carrier;
use frames::Note;
use refusals::Fault;
use votes::Delivery;

impl<C: Carrier, M> Flight<C, M> {
    // The listener votes on the author's note, and says what follows; what is delivered to it is told.
    pub(crate) fn vote(
        &mut self,
        listener: u8,
        author: u8,
        note: &Note,
    ) -> Result<Option<Delivery>, Fault>
        requires listener { listener < (C.meaning self.old.carrier).n }
        requires author { author < (C.meaning self.old.carrier).n }
        requires origin { note.now.origin < (C.meaning self.old.carrier).n }
        requires number { note.now.number ≤ last_number }
        ensures step { C.sound self.old.carrier
            → Votes C.G C.meaning self.old listener author note.now result self.new
            × C.sound self.new.carrier }
        ensures exact { OnOk result (Spoke C.says (state_of C.meaning self.old)
            self.old.carrier listener author note.now self.new.carrier) }
        ensures ordered { self.new.ordered ≡ self.old.ordered }
    {
        let (n, f) = (self.carrier.craft(), self.carrier.most_astray());
        let turn = self.table.hear(n, f, listener, author, note);
        speak(&mut self.carrier, turn, listener, note)?;
        Ok(turn.delivery(listener, note))
    }
}
