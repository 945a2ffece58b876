// Slips: a delivery that was collected, until it is booked or put back.
ghost use Rattle.std.specs.Prelude.{◌<◌, ◌≤◌, IsTrue};
ghost use Rattle.sets.specs.Sets.{labels};
ghost use Rattle.frames.specs.Notes.{last_number};

/// A delivery's slip: for the craft that the word was delivered to, and the order's origin and number. It may be let go only when it is spent,
/// and only an accepted book or put back spends it; whoever forgets one has no proof.
pub struct Slip {
    pub(crate) craft: u8,
    pub(crate) origin: u8,
    pub(crate) number: u8,
    pub(crate) spent: bool,
    ghost labelled: { (craft < labels) × (origin < labels) },
    ghost numbered: { number ≤ last_number },
}

impl Drop for Slip {
    fn drop(self)
        requires { IsTrue self.spent }
    {
        let Slip {
            craft: _,
            origin: _,
            number: _,
            spent: _,
        } = self;
    }
}
