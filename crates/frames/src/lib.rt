// Frames: what craft say, as values and as bytes, and the line by which a craft books.
#![tactic(auto)]

pub mod bookings;
pub mod buffers;
pub mod frame_bytes;
pub mod lines;
pub mod notes;
pub mod received;

pub use bookings::Booking;
pub use buffers::put_at;
pub use frame_bytes::read_and_written;
pub use lines::hex_pair;
pub use matter::{AnyMatter, KeepOut, Matter, MatterKind, Observation};
pub use notes::{Frame, LAST_NUMBER, Note, Step};
pub use received::{FRAME_LENGTH, FRAME_VERSION, Head, Received, read_frame};
pub use refusals::{Fault, Layer, Refusal};
pub use sets::{CraftSet, LABELS};
