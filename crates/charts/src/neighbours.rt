// Which craft are neighbours on a chart.
ghost use Rattle.std.specs.Prelude.{◌≡◌, ◌<◌, ◌≤◌, true, Decides, slice_index};
ghost use Rattle.sets.specs.Sets.{has};
ghost use Rattle.charts.specs.Rows.{Linked};

use crate::chart::Chart;
use sets::{CraftSet, contains};

impl Chart {
    // The neighbours of a craft; the empty set for a label that no craft has.
    pub fn row(&self, craft: u8) -> CraftSet
        ensures answer { result ≡ slice_index self.now.rows craft }
        ensures past { self.now.n ≤ craft → result ≡ 0 }
    {
        self.rows.get(usize::from(craft)).copied().unwrap_or(0)
    }

    // Whether two craft are linked, whichever is asked first; no craft is linked with a label that no craft has.
    pub fn linked(&self, a: u8, b: u8) -> bool
        ensures answer { result ≡ has (slice_index self.now.rows a) b }
        ensures meaning { Decides result (Linked self.now.rows a b) }
        ensures within { result ≡ true → (a < self.now.n) × (b < self.now.n) }
        ensures both { result ≡ has (slice_index self.now.rows b) a }
    {
        contains(self.row(a), b)
    }
}
