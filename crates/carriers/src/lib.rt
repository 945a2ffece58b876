// Carriers: they carry notes from craft to craft, over the links of a chart.
#![tactic(auto)]

pub mod carrier;
pub mod direct;
pub mod direct_carrier;
pub mod heard;
pub mod judge;
pub mod opened_carrier;
pub mod settling;
pub mod store;
pub mod store_calls;

pub use carrier::Carrier;
pub use direct::Direct;
pub use heard::Heard;
pub use judge::{judge_carry, judge_meddle, judge_say};
pub use opened_carrier::OpenedCarrier;
pub use settling::{settle, tell};
pub use store::Store;
