// Shelves: what each craft holds of the notes that it got, a set of craft for each way that a note came.
#![tactic(auto)]

pub mod kinds;
pub mod shelf;
pub mod table;

pub use kinds::{Row, Shelf, Table};
