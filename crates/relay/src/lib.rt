// Dolev's relay by path sets, as a carrier over any link service.
#![tactic(auto)]

pub mod kinds;
pub mod relay_carrier;
mod toil;

pub use kinds::Relay;
