// The direct carrier over both link services.
#![tactic(auto)]

#[cfg(test)]
mod agreeing;
#[cfg(test)]
mod astray;
#[cfg(test)]
mod both;
#[cfg(test)]
mod four;
#[cfg(test)]
mod opening;
#[cfg(test)]
mod sizes;
