// Cases at the edges of each refusal of reader, writer, matter and line.
#![tactic(auto)]

#[cfg(test)]
mod bookings;
#[cfg(test)]
mod faults;
#[cfg(test)]
mod matters;
#[cfg(test)]
mod reading;
#[cfg(test)]
mod writing;
