// Cuts: whether a carrier may be opened on a chart.
#![tactic(auto)]

pub mod complete;
pub mod direct;
pub mod examples;
mod pairs;
pub mod passed;
pub mod reach;
pub mod relay;
mod search;
pub mod walks;

pub use complete::CompleteChart;
pub use direct::{direct_test, open_direct};
pub use examples::worked_charts;
pub use passed::PassedChart;
pub use reach::{parted, reached_by_walks};
pub use relay::{open_relay, relay_test};
pub use walks::passed_walks;
