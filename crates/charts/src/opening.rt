// Charts made from rows.
ghost use Rattle.std.specs.Prelude.{◌≡◌, ◌*◌, ◌≤◌, length, nat_lt};
ghost use Rattle.sets.specs.Sets.{labels};
ghost use Rattle.charts.specs.Causes.{sized};
ghost use Rattle.charts.specs.Charts.{Made};
ghost use Rattle.charts.specs.Rows.{padded};

use crate::chart::Chart;
use crate::rows::wrong_row;
use refusals::{Fault, Layer, Refusal};
use sets::{CraftSet, LABELS};

// Whether so many craft are more than three times f.
pub fn is_enough(count: usize, f: u8) -> bool
    ensures { result ≡ nat_lt (3 * f) count }
{
    3 * usize::from(f) < count
}

// Whether so many craft are from 2 to the number of labels, and more than three times f.
fn is_sized(count: usize, f: u8) -> bool
    ensures { result ≡ sized count f }
{
    2 <= count && (count <= usize::from(LABELS) && is_enough(count, f))
}

// The rows, with empty rows after them.
fn all_rows(rows: &[CraftSet]) -> [CraftSet; 8]
    requires { length rows.now ≤ labels }
    ensures { result ≡ padded rows.now }
{
    let mut all = [0; 8];
    let n = rows.len();
    all[0..n].copy_from_slice(rows);
    all
}

impl Chart {
    // The chart of these rows, one for each craft, where at most f craft are faulty. Refused by 2 with the number of craft, unless it is from 2 to 8 and above 3f; by 3 with the first row that names its own craft, a label that no craft has, or a craft whose row does not name it back.
    pub fn new(rows: &[CraftSet], f: u8) -> Result<Chart, Fault>
        ensures { Made rows.now f result }
    {
        if !is_sized(rows.len(), f) {
            return Err(Layer::Carriers.refuses(Refusal::Size(rows.len())));
        }
        if let Some(row) = wrong_row(rows) {
            return Err(Layer::Carriers.refuses(Refusal::Row(row)));
        }
        Ok(Chart {
            n: rows.len() as u8,
            rows: all_rows(rows),
        })
    }
}
