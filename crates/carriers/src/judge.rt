// Why a call of a carrier is refused, whatever the carrier: the causes in the order in which they are tested.
// Each call's own causes stand by themselves, since a flight asks for them without the room; with the room, that is tested last.
ghost use Rattle.carriers.specs.Judging.{author_causes, index_causes, meddler_causes, room_causes, saying_causes, carrying_causes, meddling_causes, Judged};

use frames::Note;
use refusals::{Fault, Layer, Refusal};
use sets::{CraftSet, contains, count_others};

// Whether the author may say the note, where there are n craft; 1, 5.
fn judge_author(n: u8, author: u8, note: &Note) -> Result<(), Fault>
    ensures { Judged (author_causes n author note.now) result }
{
    if author >= n {
        return Err(Layer::Carriers.refuses(Refusal::Label(author)));
    }
    if !note.is_sound(n, author) {
        return Err(Layer::Carriers.refuses(Refusal::Number(note.number)));
    }
    Ok(())
}

// Whether a frame waits at index k, where so many wait; 7.
pub(crate) fn judge_index(waiting: usize, k: usize) -> Result<(), Fault>
    ensures { Judged (index_causes waiting k) result }
{
    if k >= waiting {
        return Err(Layer::Carriers.refuses(Refusal::Index(waiting)));
    }
    Ok(())
}

// Whether c may meddle, where there are n craft, at most f of them may go astray and these have, and `row` are the neighbours of c;
// 1 of c, 1 of the craft that it meddles to, 9, 10. Craft c itself does not count among those astray.
// Plain values and no chart: a carrier with its rows elsewhere can ask as well, and a chart would ask more of it.
pub(crate) fn judge_meddler(
    n: u8,
    f: u8,
    row: CraftSet,
    astray: CraftSet,
    c: u8,
    to: u8,
) -> Result<(), Fault>
    ensures { Judged (meddler_causes n f row astray c to) result }
{
    if c >= n {
        return Err(Layer::Carriers.refuses(Refusal::Label(c)));
    }
    if to >= n {
        return Err(Layer::Carriers.refuses(Refusal::Label(to)));
    }
    if !contains(row, to) {
        return Err(Layer::Carriers.refuses(Refusal::NoLink(c)));
    }
    if count_others(astray, c) >= u32::from(f) {
        return Err(Layer::Carriers.refuses(Refusal::Astray(c)));
    }
    Ok(())
}

// Whether there is room for one more call; 8.
fn judge_room(spare: usize) -> Result<(), Fault>
    ensures { Judged (room_causes spare) result }
{
    if spare == 0 {
        return Err(Layer::Carriers.refuses(Refusal::Spare(spare)));
    }
    Ok(())
}

// Whether a say is refused, where there are n craft; 1, 5, 8.
pub fn judge_say(n: u8, spare: usize, author: u8, note: &Note) -> Result<(), Fault>
    ensures { Judged (saying_causes n spare author note.now) result }
{
    judge_author(n, author, note)?;
    judge_room(spare)
}

// Whether a carry is refused, where so many frames wait; 7, 8.
pub fn judge_carry(waiting: usize, spare: usize, k: usize) -> Result<(), Fault>
    ensures { Judged (carrying_causes waiting spare k) result }
{
    judge_index(waiting, k)?;
    judge_room(spare)
}

// Whether a meddle is refused, by the same values as `judge_meddler`; 1 of c, 1 of the craft that it meddles to, 9, 10, 8.
pub fn judge_meddle(
    n: u8,
    f: u8,
    row: CraftSet,
    astray: CraftSet,
    spare: usize,
    c: u8,
    to: u8,
) -> Result<(), Fault>
    ensures { Judged (meddling_causes n f row astray spare c to) result }
{
    judge_meddler(n, f, row, astray, c, to)?;
    judge_room(spare)
}
