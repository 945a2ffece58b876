// The relay over both link services, and one craft's step.
#![tactic(auto)]

#[cfg(test)]
mod agreeing;
#[cfg(test)]
mod astray;
#[cfg(test)]
mod flights;
#[cfg(test)]
mod rest;
#[cfg(test)]
mod sizes;
#[cfg(test)]
mod steps;
#[cfg(test)]
mod toil;
