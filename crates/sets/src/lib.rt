// Sets of craft: bit i of a number stands for craft i.
#![tactic(auto)]

ghost use Rattle.std.specs.Prelude.{◌≡◌, ℕ, ◌+◌, ◌-◌, ◌<◌, min, Decides, MatchOption, nat_le};
ghost use Rattle.sets.specs.Quorums.{quorum, Counting};
ghost use Rattle.sets.specs.Sets.{labels, In, IsLowest, has, inside, meeting, union, shared, less, only, one_of, below, count, others};

mod iter;

pub use iter::{Ascending, members_of};

// A set of craft, one bit for each label. An alias and no type of its own: every clause reads a set as the number itself.
pub type CraftSet = u8;

// How many labels there are, 0 to 7, and so the most craft that a flight has.
pub const LABELS: u8 = 8;

// Whether the craft is in the set. No set has a craft past the last label.
pub fn contains(set: CraftSet, craft: u8) -> bool
    ensures { result ≡ has set craft }
{
    craft < LABELS && (set >> craft) % 2 == 1
}

// The set of this craft alone; the empty set where no craft has the label.
pub fn single(craft: u8) -> CraftSet
    ensures { result ≡ one_of labels craft }
{
    if craft < LABELS { 1 << craft } else { 0 }
}

// All craft below n.
pub fn all_below(n: u8) -> CraftSet
    ensures { result ≡ below (min n labels) }
{
    if n < LABELS {
        (1 << n) - 1
    } else {
        CraftSet::MAX
    }
}

// The set with the craft in it.
pub fn with(set: CraftSet, craft: u8) -> CraftSet
    ensures { result ≡ union set (one_of labels craft) }
{
    set | single(craft)
}

// The members of a that are not in b.
pub fn minus(a: CraftSet, b: CraftSet) -> CraftSet
    ensures { result ≡ less a b }
{
    a & !b
}

// The set without the craft.
pub fn without(set: CraftSet, craft: u8) -> CraftSet
    ensures { result ≡ less set (one_of labels craft) }
{
    minus(set, single(craft))
}

// Whether each member of a is one of b.
pub fn is_within(a: CraftSet, b: CraftSet) -> bool
    ensures { result ≡ inside a b }
{
    a & b == a
}

// Whether a and b have a member in common.
pub fn meets(a: CraftSet, b: CraftSet) -> bool
    ensures answer { result ≡ meeting a b }
    ensures members { Decides result ((i : ℕ) × In i a × In i b) }
{
    a & b != 0
}

// How many members the set has.
pub fn count(set: CraftSet) -> u32
    ensures { result ≡ count set }
{
    set.count_ones()
}

// How many members are other than the craft.
pub fn count_others(set: CraftSet, craft: u8) -> u32
    ensures { result ≡ others craft set }
{
    without(set, craft).count_ones()
}

// Whether the votes are at least so many.
pub fn reaches(votes: CraftSet, least: u32) -> bool
    ensures { result ≡ nat_le least (count votes) }
{
    least <= votes.count_ones()
}

// The lowest member; none of the empty set, and of no other.
pub fn lowest(set: CraftSet) -> Option<u8>
    ensures { MatchOption result (set ≡ 0) (λ i. (i < labels) × IsLowest i set) }
{
    if set == 0 {
        None
    } else {
        Some(set.trailing_zeros() as u8)
    }
}

// The set without its lowest member: one member fewer, unless it is empty.
pub fn rest(set: CraftSet) -> CraftSet
    ensures answer { result ≡ shared set (set - 1) }
    ensures members { (i : ℕ) → IsLowest i set → result ≡ less set (only i) }
    ensures fewer { 0 < set → count result + 1 ≡ count set }
{
    set & set.saturating_sub(1)
}

// How many of n craft make a quorum where at most f are faulty: any two such sets share f + 1.
pub fn quorum_size(n: u8, f: u8) -> u32
    ensures { result ≡ quorum n f }
{
    (u32::from(n) + u32::from(f) + 2) / 2
}

// The laws of counting hold, for any number of craft. The answer is the number of labels, counted.
pub fn counting_laws() -> u32
    ensures answer { result ≡ labels }
    ensures laws { Counting }
{
    count(CraftSet::MAX)
}

// The quorums of four craft with one faulty, and of eight with two.
pub fn worked_quorums() -> (u32, u32)
    ensures answer { result ≡ (3, 6) }
    ensures four { quorum 4 1 ≡ 3 }
    ensures eight { quorum 8 2 ≡ 6 }
{
    (quorum_size(4, 1), quorum_size(8, 2))
}
