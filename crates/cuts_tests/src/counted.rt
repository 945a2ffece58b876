// How many closures the relay's test computes: its search, with a count that ends where the search does.
use charts::Chart;
use cuts::parted;
use sets::{CraftSet, all_below, count, is_within, without};
use std::array;
use std::ops::ControlFlow;

// The count with the closures for one pair; it ends where a set is found.
fn closures_of_pair(chart: &Chart, most: u32, u: u8, v: u8, before: u32) -> ControlFlow<u32, u32> {
    let others = without(without(all_below(chart.n), u), v);
    (0..=CraftSet::MAX)
        .filter(|set| is_within(*set, others) && count(*set) <= most)
        .try_fold(before, |found, set| {
            let found = found.saturating_add(1);
            if parted(chart, set, u, v) {
                ControlFlow::Break(found)
            } else {
                ControlFlow::Continue(found)
            }
        })
}

fn closures_above(chart: &Chart, most: u32, u: u8, before: u32) -> ControlFlow<u32, u32> {
    (0..chart.n)
        .filter(|v| u < *v && !chart.linked(u, *v))
        .try_fold(
            before,
            |found, v| closures_of_pair(chart, most, u, v, found),
        )
}

fn closures_of(chart: &Chart, most: u32) -> u32 {
    match (0..chart.n).try_fold(0, |found, u| closures_above(chart, most, u, found)) {
        ControlFlow::Break(found) => found,
        ControlFlow::Continue(found) => found,
    }
}

// The closures for the chart of these rows; the largest number where they make none.
pub(crate) fn closures(rows: &[CraftSet], f: u8) -> u32 {
    Chart::new(rows, f).map_or(u32::MAX, |chart| closures_of(&chart, 2 * u32::from(f)))
}

// Row i of eight craft, of which each is linked with those at the distances that the set has, both ways round.
fn circulant_row(distances: u8, i: u8) -> CraftSet {
    distances.rotate_left(u32::from(i)) | distances.reverse_bits().rotate_left(u32::from(i) + 1)
}

fn circulant(distances: u8) -> [CraftSet; 8] {
    array::from_fn(|i| circulant_row(distances, i as u8))
}

// The most closures over the charts of eight craft in which craft are linked by their distance around a ring: distances from 1 to 4, as any of 16 sets.
pub(crate) fn most_on_circulants(f: u8) -> u32 {
    (0..16u8)
        .map(|half| closures(&circulant(2 * half), f))
        .fold(0, |most, found| found.max(most))
}
