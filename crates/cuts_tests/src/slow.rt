// The relay's test in another way: links as a matrix, whose entry in row a and column b is bit 8a + b, closed one craft after the other.
use charts::Chart;
use cuts::relay_test;
use refusals::{Layer, Refusal};

fn entry(matrix: u64, a: u8, b: u8) -> bool {
    a < 8 && b < 8 && (matrix >> (8 * a + b)) % 2 == 1
}

fn with_entry(matrix: u64, a: u8, b: u8) -> u64 {
    if a < 8 && b < 8 {
        matrix | 1 << (8 * a + b)
    } else {
        matrix
    }
}

fn is_member(set: u8, craft: u8) -> bool {
    craft < 8 && (set >> craft) % 2 == 1
}

fn size(set: u8) -> usize {
    (0..8).filter(|craft| is_member(set, *craft)).count()
}

// Row a with what craft k leads to, where a leads to k.
fn row_by(matrix: u64, k: u8, a: u8) -> u64 {
    (0..8)
        .filter(|b| entry(matrix, a, k) && entry(matrix, k, *b))
        .fold(matrix, |all, b| with_entry(all, a, b))
}

fn by(matrix: u64, k: u8) -> u64 {
    (0..8).fold(matrix, |all, a| row_by(all, k, a))
}

// Which craft lead to which, by craft outside the set.
fn closed(matrix: u64, set: u8) -> u64 {
    (0..8)
        .filter(|k| !is_member(set, *k))
        .fold(matrix, |all, k| by(all, k))
}

// The lowest set below `sets`, of at most `most` craft other than u and v, that leaves no way from u to v.
// Plain numbers and no struct, here and below: `sets` is 1 << n, which is known to fit only where n was tested.
fn slow_set(matrix: u64, sets: u8, most: u8, u: u8, v: u8) -> Option<u8> {
    (0..sets)
        .filter(|set| !is_member(*set, u) && !is_member(*set, v))
        .filter(|set| size(*set) <= usize::from(most))
        .find(|set| !entry(closed(matrix, *set), u, v))
}

fn slow_above(matrix: u64, n: u8, sets: u8, most: u8, u: u8) -> Option<Refusal> {
    (0..n).filter(|v| u < *v).find_map(|v| slow_set(matrix, sets, most, u, v).map(
        |set| Refusal::Thin(u, v, set),
    ))
}

fn slow_test(matrix: u64, n: u8, sets: u8, most: u8) -> Option<Refusal> {
    (0..n).find_map(|u| slow_above(matrix, n, sets, most, u))
}

// The chart so far with row u as the digits say, one for each pair, and the digits that are left.
fn links_above(matrix: u64, digits: u16, n: u8, u: u8) -> (u64, u16) {
    (0..n)
        .filter(|v| u < *v)
        .fold((matrix, digits), |(all, left), v| {
            if left % 2 == 1 {
                (with_entry(with_entry(all, u, v), v, u), left / 2)
            } else {
                (all, left / 2)
            }
        })
}

fn links(digits: u16, n: u8) -> u64 {
    let (all, _) = (0..n).fold((0, digits), |(all, left), u| links_above(all, left, n, u));
    all
}

// Whether the two tests answer the same of the chart that the digits say.
fn agree(n: u8, f: u8, digits: u16) -> bool {
    let matrix = links(digits, n);
    let rows = matrix.to_le_bytes();
    if n > 5 || f > 1 {
        return false;
    }
    let Ok(chart) = Chart::new(&rows[0..usize::from(n)], f) else {
        return false;
    };
    match (relay_test(chart, f), slow_test(matrix, n, 1 << n, 2 * f)) {
        (Ok(passed), None) => passed.f == f && passed.chart.n == n,
        (Err(fault), Some(refusal)) => fault == Layer::Carriers.refuses(refusal),
        _ => false,
    }
}

// Whether they do on each of the first charts of n craft.
pub(crate) fn all_agree(n: u8, f: u8, charts: u16) -> bool {
    (0..charts).all(|digits| agree(n, f, digits))
}
