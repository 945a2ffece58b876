// What the relay is made of, beside its chart: a store and the craft astray.
#![tactic(auto)]

pub mod base;
pub mod base_calls;

pub use base::Base;
