// Rehearsals at their edges: every refusal that a record can reach, records cut off, lengths, kinds, piles.
#![tactic(auto)]

#[cfg(test)]
mod any_bytes;
#[cfg(test)]
mod calls;
#[cfg(test)]
mod given;
#[cfg(test)]
mod openings;
#[cfg(test)]
mod shapes;
#[cfg(test)]
mod values;
