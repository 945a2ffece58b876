// The search for a hitting set: few craft of which every set held for an author and a note has one.
ghost use Rattle.std.specs.Prelude.{◌≡◌, ℕ, Decides, MatchOption};
ghost use Rattle.std.specs.List.{ContainsAt as Has};
ghost use Rattle.sets.specs.Sets.{shared};
ghost use Rattle.pathsets.specs.Hitting.{Hits, hittable, Hittable, HittableWith};
ghost use Rattle.pathsets.specs.Keys.{sets_of};

use frames::Note;
use sets::{CraftSet, meets, members_of, with};
use shelves::Row;

// The first set held for the author and the note that has no craft of the chosen ones.
fn first_unmet(rows: &[Row], author: u8, note: &Note, chosen: CraftSet) -> Option<CraftSet>
    ensures { MatchOption result (Hits chosen (sets_of author note.now rows.now)) (λ s. Has (sets_of author note.now rows.now) s × (shared s chosen ≡ 0)) }
{
    rows.iter()
        .filter(|row| row.is_for(author, note))
        .map(|row| row.held)
        .find(|held| !meets(*held, chosen))
}

// Whether at most `allowed` craft more, together with the chosen ones, hit every set held for the author and the note:
// one of the craft of an unmet set has to be among them, so each is tried, with one fewer allowed.
fn is_hittable_with(rows: &[Row], author: u8, note: &Note, chosen: CraftSet, allowed: u8) -> bool
    ensures { Decides result (HittableWith (sets_of author note.now rows.now) chosen allowed) }
{
    let Some(unmet) = first_unmet(rows, author, note, chosen) else {
        return true;
    };
    if allowed == 0 {
        return false;
    }
    // a `for` and no `any`: of a closure in a cycle of calls nothing is inferred
    for craft in members_of(unmet) {
        if is_hittable_with(rows, author, note, with(chosen, craft), allowed - 1) {
            return true;
        }
    }
    false
}

// Whether some set of at most f craft hits every set that the rows hold for the author and the note.
pub fn is_hittable(rows: &[Row], author: u8, note: &Note, f: u8) -> bool
    ensures answer { result ≡ hittable f (sets_of author note.now rows.now) }
    ensures meaning { Decides result (Hittable f (sets_of author note.now rows.now)) }
{
    is_hittable_with(rows, author, note, 0, f)
}
