// Any bytes at all give lines.
use crate::given::{FOUR, TWO};
use rehearsal::rehearse;
use std::process::Abort;
use std::test::Fail;

// Bytes by chance: each is worked out of the number before it.
#[derive(Drop)]
struct Bytes {
    last: u32,
}

impl Bytes {
    fn next(&mut self) -> u8 {
        self.last = self
            .last
            .wrapping_mul(1_664_525)
            .wrapping_add(1_013_904_223);
        self.last.to_be_bytes()[0]
    }
}

// After an opening, or after none, records of known and unknown kinds with any bytes in them, and then any bytes. The text ends with a line.
fn gives_lines(
    rt: &(impl Abort + AllocGlobal),
    opening: &[u8],
    bytes: &mut Bytes,
) -> Result<(), Fail> {
    let mut input = Vec::new(rt.alloc());
    input.extend_from_slice(opening)?;
    for _ in 0..20 {
        let (length, kind) = match bytes.next() % 8 {
            0 | 1 => (13, 2),
            2 | 3 | 4 => (5, 3),
            5 | 6 => (20, 4),
            _ => (bytes.next(), bytes.next()),
        };
        input.extend_from_slice(&[length, 1, kind])?;
        for _ in 3..length {
            input.push(bytes.next() % 8)?;
        }
    }
    for _ in 0..60 {
        input.push(bytes.next())?;
    }
    assert_eq!(rt; rehearse(rt.alloc(), &input)?.last(), Some(&b'\n'));
    Ok(())
}

#[test]
fn a_million_bytes_give_lines(rt: HostRuntime) -> Result<(), Fail> {
    let mut bytes = Bytes { last: 1 };
    for _ in 0..1000 {
        gives_lines(&rt, &[], &mut bytes)?;
        gives_lines(&rt, &TWO, &mut bytes)?;
        gives_lines(&rt, &FOUR, &mut bytes)?;
    }
    Ok(())
}
