// Worked examples, proved of the definitions and run by the code.
ghost use Rattle.std.specs.Prelude.{◌≡◌, true, false, not, is_some};
ghost use Rattle.refusals.specs.Refusals.{refusal};
ghost use Rattle.charts.specs.Causes.{chart_causes};
ghost use Rattle.charts.specs.Examples.{WorkedSizes};

use crate::chart::Chart;
use sets::CraftSet;

// Whether the rows make a chart.
fn is_chart(rows: &[CraftSet], f: u8) -> bool
    ensures { result ≡ not (is_some (refusal (chart_causes rows.now f))) }
{
    Chart::new(rows, f).is_ok()
}

// With two craft faulty, seven that are all linked with one another make a chart, and six do not, whatever their rows.
pub fn worked_sizes() -> (bool, bool)
    ensures answer { result ≡ (true, false) }
    ensures sizes { WorkedSizes }
{
    let seven = is_chart(&[126, 125, 123, 119, 111, 95, 63], 2);
    let six = is_chart(&[62, 61, 59, 55, 47, 31], 2);
    (seven, six)
}
