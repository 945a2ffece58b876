// How long the lists of votes are.
use frames::LAST_NUMBER;
use sets::LABELS;

/// How many labels there are: the length of a list by authors, by craft or by origins.
pub const LABEL_COUNT: usize = LABELS as usize;

// How many orders an origin can have: the length of a list by their numbers.
pub(crate) const ORDER_COUNT: usize = LAST_NUMBER as usize + 1;
