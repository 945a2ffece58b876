// A flight: craft that order, vote and book, over any carrier.
#![tactic(auto)]

pub mod booking;
pub mod flight;
pub mod flying;
pub mod judging;
pub mod lists;
pub mod marking;
pub mod slips;
pub mod speaking;
pub mod steps;
pub mod voting;
pub mod worked;

pub use flight::{Flight, Hearing};
pub use flying::{execute_all, fly};
pub use judging::LEAST_SPARE;
pub use lists::{Answer, Command};
pub use slips::Slip;
pub use worked::worked_toil;
