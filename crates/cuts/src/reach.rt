// What walks lead to.
ghost use Rattle.std.specs.Prelude.{◌≡◌, ℕ, ◌<◌, ◌≤◌, true, ◌⊎◌, Decides};
ghost use Rattle.sets.specs.Sets.{In};
ghost use Rattle.cuts.specs.Walks.{Joined, Parts};
ghost use Rattle.cuts.specs.Reach.{around, reached, parted};
ghost use Rattle.cuts.specs.Laws.{ReachedByWalks};

use charts::Chart;
use sets::{CraftSet, all_below, contains, members_of, minus, single};

// The neighbours of the members of the set.
fn neighbours_of(chart: &Chart, set: CraftSet) -> CraftSet
    ensures { result ≡ around chart.now.rows set chart.now.n }
{
    members_of(set).fold(0, |found, i| found | chart.row(i))
}

// The craft that walks outside the avoided set lead to: the closure, after n - 1 rounds. None where no craft has the label.
pub fn reached_by_walks(chart: &Chart, from: u8, avoid: CraftSet) -> CraftSet
    ensures answer { result ≡ reached chart.now.n chart.now.rows avoid from }
    ensures members { (v : ℕ) → (In v result → Joined chart.now.n chart.now.rows avoid from v) × (Joined chart.now.n chart.now.rows avoid from v → In v result) }
    ensures law { ReachedByWalks }
{
    let start = minus(single(from) & all_below(chart.n), avoid);
    (0..chart.n - 1).fold(
        start,
        |found, _| minus(found | neighbours_of(chart, found), avoid),
    )
}

// Whether no walk outside the avoided set leads from u to v. A label that no craft has is reached by nobody.
pub fn parted(chart: &Chart, avoid: CraftSet, u: u8, v: u8) -> bool
    ensures answer { result ≡ parted chart.now.n chart.now.rows u v avoid }
    ensures meaning { Decides result (Joined chart.now.n chart.now.rows avoid u v → ⊥) }
    ensures walks { u < chart.now.n → Decides result (Parts chart.now.rows u v avoid) }
    ensures past { (chart.now.n ≤ u) ⊎ (chart.now.n ≤ v) → result ≡ true }
{
    !contains(reached_by_walks(chart, u, avoid), v)
}
