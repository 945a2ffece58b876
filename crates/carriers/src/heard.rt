// What a carry lets a craft hear.
use frames::Note;

// The listener heard the note, said by its author.
#[derive(Clone, Copy, PartialEq, Eq, Debug)]
pub struct Heard {
    pub note: Note,
    pub listener: u8,
    pub author: u8,
}
