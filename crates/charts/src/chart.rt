// A chart. Its links lead both ways, between craft of the flight: nothing else can be made.
ghost use Rattle.std.specs.Prelude.{◌≡◌, ◌≤◌, length};
ghost use Rattle.sets.specs.Sets.{labels};
ghost use Rattle.charts.specs.Rows.{Apart, Bounded, Mutual};

use sets::CraftSet;

// Of n craft, row i is the set of the neighbours of craft i; rows at or past n are empty.
// An array and the number of rows, in fixed memory: so a chart is Copy, which a vector of fixed capacity is not.
#[derive(Clone, Copy, PartialEq, Eq, Debug)]
pub struct Chart {
    pub n: u8,
    pub rows: [CraftSet; 8],
    ghost few: { (2 ≤ n) × (n ≤ labels) },
    ghost full: { length rows ≡ labels },
    ghost apart: { Apart rows },
    ghost bounded: { Bounded n rows },
    ghost mutual: { Mutual rows },
}
