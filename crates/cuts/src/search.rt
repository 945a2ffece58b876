// Whether a few others cut two craft apart, and the lowest set that does.
ghost use Rattle.std.specs.Prelude.{◌≡◌, ◌<◌, ◌≤◌};
ghost use Rattle.sets.specs.Sets.{labels};
ghost use Rattle.cuts.specs.Reach.{parted};
ghost use Rattle.cuts.specs.Cuts.{all_but, cuts};
ghost use Rattle.cuts.specs.Causes.{thin_causes};
ghost use Rattle.cuts.specs.Tested.{Tested, CutTested};

use crate::reach::parted;
use charts::Chart;
use refusals::Refusal;
use sets::{CraftSet, all_below, count, is_within, without};

// The craft below n other than u and v.
fn all_but(n: u8, u: u8, v: u8) -> CraftSet
    requires { n ≤ labels }
    ensures { result ≡ all_but n u v }
{
    without(without(all_below(n), u), v)
}

// Whether the set has candidates alone, at most `most` of them, and parts u and v. Only where the first two hold is a closure computed.
fn is_cut(chart: &Chart, candidates: CraftSet, most: u8, u: u8, v: u8, set: CraftSet) -> bool
    ensures { result ≡ cuts (parted chart.now.n chart.now.rows u v) candidates most set }
{
    is_within(set, candidates) && (count(set) <= u32::from(most) && parted(chart, set, u, v))
}

// The lowest set of at most `most` candidates that parts u and v. Plain values here and in `is_cut`: a struct would be made for one call.
fn lowest_cut(chart: &Chart, candidates: CraftSet, most: u8, u: u8, v: u8) -> Option<CraftSet>
    ensures { CutTested (parted chart.now.n chart.now.rows u v) candidates most u v chart.now.n result }
{
    (0..=all_below(chart.n)).find(|set| is_cut(chart, candidates, most, u, v, *set))
}

// Why two craft are refused: they are not linked, and at most `most` others part them. Told with the lowest set that does.
pub(crate) fn thin(chart: &Chart, most: u8, u: u8, v: u8) -> Option<Refusal>
    ensures { Tested (thin_causes chart.now.n chart.now.rows most u v) result }
{
    if chart.linked(u, v) {
        return None;
    }
    lowest_cut(chart, all_but(chart.n, u, v), most, u, v).map(|set| Refusal::Thin(u, v, set))
}
