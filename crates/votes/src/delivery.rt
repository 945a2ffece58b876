// What a craft is told.

/// The word of an origin's order under a number, as it is delivered to a craft.
#[derive(Clone, Copy, PartialEq, Eq, Debug)]
pub struct Delivery {
    /// The word on which the craft agreed; whether it is matter is for its reader to test.
    pub word: u64,
    /// The craft that it is delivered to.
    pub craft: u8,
    /// The craft whose order it is.
    pub origin: u8,
    /// Under which of its numbers the origin ordered it.
    pub number: u8,
}
