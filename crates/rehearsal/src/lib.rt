// Rehearsals: a flight flown by records, and told as text.
#![tactic(auto)]

pub mod answers;
pub mod calls;
pub mod piles;
pub mod reading;
pub mod records;
pub mod rehearsing;

pub use answers::Outcome;
pub use piles::Pile;
pub use reading::{RECORD_VERSION, Records, record_length};
pub use records::{Call, Opening, Record};
pub use rehearsing::rehearse;
