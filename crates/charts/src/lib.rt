// Charts: which craft of a flight hear which.
#![tactic(auto)]

pub mod chart;
pub mod examples;
pub mod neighbours;
pub mod opening;
mod rows;

pub use chart::Chart;
pub use examples::worked_sizes;
pub use opening::is_enough;
