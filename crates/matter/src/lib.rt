// Matter: what an order carries, as a value and as a word of eight bytes.
#![tactic(auto)]

pub mod any_matter;
pub mod examples;
pub mod keep_outs;
pub mod kinds;
pub mod matter_kinds;
pub mod matters;
pub mod observations;
mod ranges;

pub use any_matter::AnyMatter;
pub use examples::worked_words;
pub use kinds::{KeepOut, LAST_SECOND, Observation};
pub use matter_kinds::MatterKind;
pub use matters::{Matter, read_back, written_again};
