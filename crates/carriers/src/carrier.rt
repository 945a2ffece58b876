// What a carrier is.
ghost use Rattle.std.specs.Prelude.{◌≡◌, ℕ, ◌<◌, ◌≤◌, Option, Result, slice_index};
ghost use Rattle.sets.specs.Sets.{labels};
ghost use Rattle.agreement.specs.Carrying.{Fixed, carry_causes, meddle_causes};
ghost use Rattle.refusals.specs.declared.Fault.{Fault};
ghost use Rattle.frames.specs.declared.notes.Note.{Note};
ghost use Rattle.frames.specs.declared.notes.Frame.{Frame};
ghost use Rattle.carriers.specs.declared.heard.Heard.{Heard};
ghost use Rattle.carriers.specs.Calls.{Say, Carry, Meddle, Answers, Labelled, toil_limit};
ghost use Rattle.carriers.specs.Judging.{Judged};

use crate::heard::Heard;
use crate::judge::{judge_index, judge_meddler};
use agreement::LawfulCarrier;
use frames::{Frame, Note};
use refusals::Fault;
use sets::CraftSet;

// Carries notes from craft to craft, and keeps who heard which note of whom. Its meaning (craft, chart, what was heard, what waits,
// who is astray, spare and toil), `sound`, which opening gives and every call keeps, and the two laws are those of LawfulCarrier.
// `sound` is a premise and no invariant of a type: a law speaks of every value, and a call changes links and shelves one after the other.
pub trait Carrier: LawfulCarrier {
    // the most that one say adds to the toil
    const G: u64;

    // the same, where a clause speaks of it
    ghost G: { ℕ };
    // what carrying frame k tells: who hears which note of whom, or nothing
    ghost tells: { Self → ℕ → Option Heard };
    // what each call does to the carrier itself, sound or not
    ghost says: { Self → ℕ → Note → Result Unit Fault → Self → Type 0 };

    ghost carries: { Self → ℕ → Result (Option Heard) Fault → Self → Type 0 };

    ghost meddles: { Self → ℕ → ℕ → Frame → Result Unit Fault → Self → Type 0 };

    // The author says the note; 1, 5, 8. A note that it said before changes nothing.
    fn say(&mut self, author: u8, note: Note) -> Result<(), Fault>
        ensures step { Self.sound self.old → Say G (Self.meaning self.old) author note result (Self.meaning self.new) × Self.sound self.new }
        ensures fixed { Fixed (Self.meaning self.old) (Self.meaning self.new) }
        ensures exact { says self.old author note result self.new };

    // Moves the frame that waits at index k, and answers who heard what by it; 7, 8.
    fn carry(&mut self, k: usize) -> Result<Option<Heard>, Fault>
        ensures step { Self.sound self.old → Carry (Self.meaning self.old) k result (Self.meaning self.new) × Self.sound self.new }
        ensures answer { Answers (tells self.old k) result }
        ensures labels { Labelled (Self.meaning self.old).n result }
        ensures fixed { Fixed (Self.meaning self.old) (Self.meaning self.new) }
        ensures exact { carries self.old k result self.new };

    // Craft c puts any frame to a neighbour, and is astray from then on; 1, 9, 10, 8.
    fn meddle(&mut self, c: u8, to: u8, frame: Frame) -> Result<(), Fault>
        ensures step { Self.sound self.old → Meddle (Self.meaning self.old) c to result (Self.meaning self.new) × Self.sound self.new }
        ensures fixed { Fixed (Self.meaning self.old) (Self.meaning self.new) }
        ensures exact { meddles self.old c to frame result self.new };

    // Why a carry at index k is refused, room aside; 7. So a flight, which tests the room by its own measure, asks the carrier for the rest.
    fn judge_carry(&self, k: usize) -> Result<(), Fault>
        ensures { Judged (carry_causes (Self.meaning self.now) k) result }
    {
        judge_index(self.waiting(), k)
    }

    // Why a meddle by c is refused, room aside; 1 of c, 1 of the craft that it meddles to, 9, 10.
    fn judge_meddle(&self, c: u8, to: u8) -> Result<(), Fault>
        ensures { Judged (meddle_causes (Self.meaning self.now) c to) result }
    {
        judge_meddler(
            self.craft(),
            self.most_astray(),
            self.row(c),
            self.astray(),
            c,
            to,
        )
    }

    // How many craft there are.
    fn craft(&self) -> u8
        ensures answer { result ≡ (Self.meaning self.now).n }
        ensures few { result ≤ labels };

    // How many of them may go astray.
    fn most_astray(&self) -> u8
        ensures { result ≡ (Self.meaning self.now).f };

    // How many frames wait.
    fn waiting(&self) -> usize
        ensures { result ≡ (Self.meaning self.now).waiting };

    // How many more calls there is room for, at least.
    fn spare(&self) -> usize
        ensures { result ≡ (Self.meaning self.now).spare };

    // The toil: of the carries that follow, with no other call between them, no more are accepted.
    fn toil(&self) -> u128
        ensures answer { result ≡ (Self.meaning self.now).toil }
        ensures few { result < toil_limit };

    // The craft astray.
    fn astray(&self) -> CraftSet
        ensures { result ≡ (Self.meaning self.now).astray };

    // Whether the listener heard the author's note; what an author heard of itself, it said.
    fn heard(&self, listener: u8, author: u8, note: &Note) -> bool
        ensures { result ≡ (Self.meaning self.now).heard listener author note.now };

    // The neighbours of a craft; none of a label that no craft has.
    fn row(&self, craft: u8) -> CraftSet
        ensures { result ≡ slice_index (Self.meaning self.now).chart craft };
}
