// Flights over both carriers and both link services.
#![tactic(auto)]

mod client;
#[cfg(test)]
mod commands;
#[cfg(test)]
mod given;
#[cfg(test)]
mod refused;
#[cfg(test)]
mod rest;
#[cfg(test)]
mod sizes;
#[cfg(test)]
mod slips;
#[cfg(test)]
mod spare;
#[cfg(test)]
mod two_craft;
#[cfg(test)]
mod two_words;
