// One craft's step on a frame from a neighbour.
ghost use Rattle.std.specs.Prelude.{◌≡◌, ◌+◌, ◌≤◌, true, length};
ghost use Rattle.shelves.specs.Shelves.{rows_of, room};
ghost use Rattle.pathsets.specs.Keys.{sets_of};
ghost use Rattle.pathsets.specs.Shelving.{Takes, TakesAt, Settles};

use crate::fitting::{is_fit, path_of};
use crate::listener::Listener;
use crate::outcome::Outcome;
use crate::search::is_hittable;
use crate::telling::told;
use frames::{Frame, Note};
use sets::{CraftSet, LABELS};
use shelves::{Shelf, Table};

// Once a path is held: the note is heard if no f craft hit every set held for it, and then the empty set takes the place of all.
// What is then held for it goes on.
fn pass_on(shelf: &mut Shelf, at: &Listener, author: u8, note: &Note, path: CraftSet) -> Outcome
    ensures { room (rows_of shelf.old) author note.now 0 ≡ true → Settles at.now author note.now path (rows_of shelf.old) result (rows_of shelf.new) }
{
    if is_hittable(&shelf.rows, author, note, at.f) {
        let to = told(at.neighbours, author, note, path, &shelf.rows);
        return Outcome::Held { set: path, to };
    }
    let to = told(at.neighbours, author, note, 0, &shelf.rows);
    shelf.hold(author, note, 0);
    Outcome::Heard { to }
}

// What the craft does with a frame from a neighbour, on its own shelf. Where the shelf has no room for the path, the frame is dropped.
pub fn take_in(shelf: &mut Shelf, at: &Listener, from: u8, frame: &Frame) -> Outcome
    ensures step { Takes at.now from frame.now (rows_of shelf.old) result (rows_of shelf.new) }
    ensures more { length (rows_of shelf.new) ≤ length (rows_of shelf.old) + 1 }
{
    if !is_fit(at, from, frame) {
        return Outcome::Dropped;
    }
    let path = path_of(from, frame);
    if shelf.covers(frame.author, &frame.note, path) {
        return Outcome::Dropped;
    }
    if !shelf.hold(frame.author, &frame.note, path) {
        return Outcome::Dropped;
    }
    pass_on(shelf, at, frame.author, &frame.note, path)
}

// The same on the shelves of all craft: the listener's is lent, and no other changes.
pub fn take_in_at(table: &mut Table, at: &Listener, from: u8, frame: &Frame) -> Outcome
    ensures { TakesAt table.old.at at.now from frame.now result table.new.at }
{
    // `get_mut` of an array promises nothing of what is written, so the shelf is reached by its index.
    if at.craft >= LABELS {
        return Outcome::Dropped;
    }
    take_in(&mut table.at[at.craft as usize], at, from, frame)
}
