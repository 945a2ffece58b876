// Worked examples, proved of the definitions and run by the code.
ghost use Rattle.std.specs.Prelude.{◌≡◌, true, false};
ghost use Rattle.frames.specs.declared.notes.Step.TheVariants.{Send};
ghost use Rattle.frames.specs.Notes.{note};
ghost use Rattle.shelves.specs.Rows.{row_of};
ghost use Rattle.pathsets.specs.Examples.{WorkedFamilies};

use crate::search::is_hittable;
use frames::Note;
use sets::CraftSet;
use shelves::Row;

// A row that holds a set for the default note of craft 0.
fn holding(held: CraftSet) -> Row
    ensures { result ≡ row_of 0 (note Send 0 0 0) held }
{
    Row {
        held,
        ..Row::default()
    }
}

// With one craft astray at most: {2} alone is not heard, {2} and {3} are; {2, 3} and {2, 4} are not, with {3, 4} they are.
// With none: whatever is held is heard, and nothing is heard where nothing is held. The answers are those of the first four.
pub fn worked_families() -> (bool, bool, bool, bool)
    ensures answer { result ≡ (false, true, false, true) }
    ensures families { WorkedFamilies }
{
    let note = Note::default();
    let one = [holding(0b00100)];
    let two = [holding(0b00100), holding(0b01000)];
    let pairs = [holding(0b01100), holding(0b10100)];
    let triangle = [holding(0b01100), holding(0b10100), holding(0b11000)];
    (
        !is_hittable(&one, 0, &note, 1),
        !is_hittable(&two, 0, &note, 1),
        !is_hittable(&pairs, 0, &note, 1),
        !is_hittable(&triangle, 0, &note, 1),
    )
}
