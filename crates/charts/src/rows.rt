// Whether rows name rightly. They are a caller's and no chart yet, so that they are few is asked at each function.
ghost use Rattle.std.specs.Prelude.{◌≡◌, ◌<◌, ◌≤◌, length};
ghost use Rattle.sets.specs.Sets.{labels};
ghost use Rattle.charts.specs.Rows.{answered, right};
ghost use Rattle.charts.specs.Causes.{RowsTested};

use sets::{CraftSet, all_below, contains, is_within};

// Whether every craft that row i names, names i. By labels, here and below: each link is looked up from both of its ends.
fn is_answered(rows: &[CraftSet], i: u8) -> bool
    requires few { length rows.now ≤ labels }
    requires there { i < length rows.now }
    ensures { result ≡ answered rows.now i (length rows.now) }
{
    (0..rows.len() as u8).all(|j| !contains(rows[i as usize], j) || contains(rows[j as usize], i))
}

// Whether row i names neither its own craft nor a label that no craft has, and every craft that it names, names i.
fn is_right(rows: &[CraftSet], i: u8) -> bool
    requires few { length rows.now ≤ labels }
    requires there { i < length rows.now }
    ensures { result ≡ right (length rows.now) rows.now i }
{
    let row = rows[i as usize];
    is_within(row, all_below(rows.len() as u8)) && (!contains(row, i) && is_answered(rows, i))
}

// The first row that names wrongly, if any does.
pub(crate) fn wrong_row(rows: &[CraftSet]) -> Option<u8>
    requires { length rows.now ≤ labels }
    ensures { RowsTested rows.now result }
{
    (0..rows.len() as u8).find(|i| !is_right(rows, *i))
}
