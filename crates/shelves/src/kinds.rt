// What one craft holds, and what all do.
ghost use Rattle.std.specs.Prelude.{◌≡◌, ◌≤◌};
ghost use Rattle.arrayvec.specs.ArrayVec.{array_vec_len};
ghost use Rattle.shelves.specs.Lengths.{shelf_length};
ghost use Rattle.shelves.specs.Rows.{keyed};

use arrayvec::ArrayVec;
use frames::Note;
use sets::CraftSet;

// A set of craft that is held for an author and a note. The empty set is held for what was heard.
// Author and note are no struct of their own, here and where they are passed together: with its padding a row would grow from 24 to 32 bytes,
// and memory is fixed; frames, rows and what is heard have the two beside a third field, so a struct would be made for each call.
#[derive(Clone, Copy, PartialEq, Eq, Debug, Default)]
pub struct Row {
    pub note: Note,
    pub author: u8,
    pub held: CraftSet,
}

// One craft's rows, the oldest first.
#[derive(Drop)]
pub struct Shelf {
    pub rows: ArrayVec<Row, { Shelf::LENGTH }>,
    ghost few: { array_vec_len rows ≤ shelf_length },
}

// A shelf for each label. A shelf is lent to what changes it; its rows are never handed out to be written.
#[derive(Drop)]
pub struct Table {
    pub at: [Shelf; 8],
}

impl Row {
    // Whether the row is for the author and the note.
    pub fn is_for(&self, author: u8, note: &Note) -> bool
        ensures { result ≡ keyed author note.now self.now }
    {
        self.author == author && self.note == *note
    }
}
