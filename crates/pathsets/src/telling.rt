// Whom a craft tells what it holds.
ghost use Rattle.std.specs.Prelude.{◌≡◌};
ghost use Rattle.sets.specs.Sets.{labels, passing};
ghost use Rattle.pathsets.specs.Families.{singles};
ghost use Rattle.pathsets.specs.Keys.{sets_of};
ghost use Rattle.pathsets.specs.Steps.{tells};

use frames::Note;
use sets::{CraftSet, count, minus, without};
use shelves::Row;

// The craft that make up a set held for the author and the note by themselves: they are known to have heard it.
// Its chain begins as that of `first_unmet`: a function that answers an iterator without a name gets no proof yet.
fn alone(rows: &[Row], author: u8, note: &Note) -> CraftSet
    ensures { result ≡ singles (sets_of author note.now rows.now) }
{
    rows.iter()
        .filter(|row| row.is_for(author, note))
        .map(|row| row.held)
        .filter(|held| count(*held) == 1)
        .fold(0, |craft, held| craft | held)
}

// The neighbours that are told a set: not the author, not those in the set, and not those that are alone in a set that the rows hold.
pub(crate) fn told(
    neighbours: CraftSet,
    author: u8,
    note: &Note,
    set: CraftSet,
    rows: &[Row],
) -> CraftSet
    ensures { result ≡ passing labels (tells neighbours author set (sets_of author note.now rows.now)) }
{
    let others = without(neighbours, author);
    minus(minus(others, set), alone(rows, author, note))
}
