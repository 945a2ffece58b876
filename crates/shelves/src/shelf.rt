// One craft's rows.
ghost use Rattle.std.specs.Prelude.{◌≡◌, ◌+◌, ◌-◌, ◌≤◌, [], length, filter};
ghost use Rattle.shelves.specs.Lengths.{shelf_length};
ghost use Rattle.shelves.specs.Rows.{covers, covered, stays};
ghost use Rattle.shelves.specs.Shelves.{rows_of, Held};

use crate::kinds::{Row, Shelf};
use arrayvec::ArrayVec;
use frames::Note;
use sets::{CraftSet, is_within};

// Whether the row holds a set within this one for the author and the note.
fn covers_set(row: &Row, author: u8, note: &Note, set: CraftSet) -> bool
    ensures { result ≡ covers author note.now set row.now }
{
    row.is_for(author, note) && is_within(row.held, set)
}

// Whether the row stays when this set is held for the author and the note.
fn keeps(row: &Row, author: u8, note: &Note, set: CraftSet) -> bool
    ensures { result ≡ stays author note.now set row.now }
{
    !(row.is_for(author, note) && is_within(set, row.held))
}

impl Shelf {
    // How many rows a shelf has room for.
    pub const LENGTH: usize = 120;

    // A shelf with no row.
    pub fn new() -> Shelf
        ensures { rows_of result ≡ [] }
    {
        Shelf {
            rows: ArrayVec::new(),
        }
    }

    // How many rows there are.
    pub fn len(&self) -> usize
        ensures { result ≡ length (rows_of self.now) }
    {
        self.rows.len()
    }

    // How many rows are free.
    pub fn free(&self) -> usize
        ensures { result ≡ shelf_length - length (rows_of self.now) }
    {
        self.rows.remaining_capacity()
    }

    // Whether a set within this one is held for the author and the note. With the empty set: whether the note was heard.
    pub fn covers(&self, author: u8, note: &Note, set: CraftSet) -> bool
        ensures { result ≡ covered (rows_of self.now) author note.now set }
    {
        self.rows
            .iter()
            .any(|row| covers_set(row, author, note, set))
    }

    // The sets held for the author and the note that contain this one go; the other rows stay, in their order.
    fn drop_above(&mut self, author: u8, note: &Note, set: CraftSet)
        ensures { rows_of self.new ≡ filter (stays author note.now set) (rows_of self.old) }
    {
        self.rows.retain(|row| keeps(row, author, note, set));
    }

    // Holds a set for the author and the note, in place of the sets held for them that contain it. Answers whether there was room; where there was none, nothing changes.
    // A bool and no Result: want of room is the only cause, so an error would have nothing to tell.
    pub fn hold(&mut self, author: u8, note: &Note, set: CraftSet) -> bool
        ensures rows { Held (rows_of self.old) author note.now set result (rows_of self.new) }
        ensures more { length (rows_of self.new) ≤ length (rows_of self.old) + 1 }
    {
        self.drop_above(author, note, set);
        let row = Row {
            note: *note,
            author,
            held: set,
        };
        self.rows.try_push(row).is_ok()
    }
}
