// A booking. Its labels are those of craft, and its number that of an order: nothing else can be made.
ghost use Rattle.std.specs.Prelude.{◌<◌, ◌≤◌};
ghost use Rattle.sets.specs.Sets.{labels};

// A craft books, under its own label, the word delivered for an origin and a number.
#[derive(Clone, Copy, PartialEq, Eq, Debug)]
pub struct Booking {
    pub craft: u8,
    pub origin: u8,
    pub number: u8,
    pub word: u64,
    ghost labelled: { (craft < labels) × (origin < labels) },
    ghost numbered: { number ≤ 3 },
}
