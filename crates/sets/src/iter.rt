// The members of a set one after another, the lowest first.
ghost use Rattle.std.specs.Prelude.{◌≡◌};
ghost use Rattle.std.specs.Iterator.{YieldsFirst, item_count};
ghost use Rattle.sets.specs.Sets.{members_of};
ghost use Rattle.sets.specs.Ascending.{members_left};

use crate::{CraftSet, lowest, rest};

// The members that are still to come.
#[derive(Drop)]
pub struct Ascending {
    left: CraftSet,
}

impl Iterator for Ascending {
    type Item = u8;

    ghost next_gives = { YieldsFirst members_left };

    ghost remaining = { item_count members_left };

    fn next(&mut self) -> Option<u8> {
        let first = lowest(self.left)?;
        self.left = rest(self.left);
        Some(first)
    }
}

// All members of the set, ascending.
pub fn members_of(set: CraftSet) -> Ascending
    ensures { members_left result ≡ members_of set }
{
    Ascending { left: set }
}
