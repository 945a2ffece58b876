// Records that the tests put together.
use rehearsal::rehearse;
use std::process::Abort;
use std::test::Fail;

// Two craft that hear each other, nobody astray, the direct carrier over the entry list.
pub(crate) const TWO: [u8; 8] = [8, 1, 1, 1, 2, 0, 2, 1];

// Four craft that all hear each other, one astray at most, the direct carrier over the put log.
pub(crate) const FOUR: [u8; 10] = [10, 1, 1, 2, 4, 1, 14, 13, 11, 7];

// Target 300 from second 3,600 for 12 seconds in mode 1, ordered by craft 0 under number 0.
pub(crate) const ORDER: [u8; 13] = [13, 1, 2, 0, 0, 1, 1, 0x2C, 0, 0x0E, 0x10, 12, 1];

// The frame at index 0 is carried.
pub(crate) const CARRY: [u8; 5] = [5, 1, 3, 0, 0];

// Craft 0 sends craft 1 an Echo of its own order, for eight zero bytes.
pub(crate) const MEDDLE: [u8; 20] = [20, 1, 4, 0, 1, 15, 1, 2, 0, 0, 0, 0, 0, 0, 0, 0, 0, 0, 0, 0];

// A record with another byte at a place.
pub(crate) fn with<const N: usize>(mut record: [u8; N], at: usize, byte: u8) -> [u8; N] {
    if at < N {
        record[at] = byte;
    }
    record
}

// The text that these records give, one after the other, is this.
pub(crate) fn gives(
    rt: &(impl Abort + AllocGlobal),
    records: &[&[u8]],
    due: &str,
) -> Result<(), Fail> {
    let mut input = Vec::new(rt.alloc());
    for record in records {
        input.extend_from_slice(record)?;
    }
    assert_eq!(rt; rehearse(rt.alloc(), &input)?.as_slice(), due.as_bytes());
    Ok(())
}
