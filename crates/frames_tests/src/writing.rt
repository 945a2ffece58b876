// The frame writer: where it writes, what it leaves, and when it refuses.
use crate::faults::refused;
use frames::{Fault, Frame, Note, Refusal, Step};

fn short(needed: usize) -> Result<(), Fault> {
    refused(Refusal::Short(needed))
}

fn echo() -> Frame {
    let note = Note {
        step: Step::Echo,
        origin: 2,
        number: 3,
        content: 0x0102030405060708,
    };
    Frame {
        author: 1,
        note,
        set: 0x81,
    }
}

#[test]
fn fills_its_place_only(rt: HostRuntime) {
    let mut buf = [0xEE; 20];
    assert_eq!(rt; echo().write_at(&mut buf, 3), Ok(()));
    assert_eq!(rt;
        buf,
        [
            0xEE, 0xEE, 0xEE, 15, 1, 2, 1, 2, 3, 0x81, 1, 2, 3, 4, 5, 6, 7, 8, 0xEE, 0xEE,
        ]
    );
}

#[test]
fn fits_exactly(rt: HostRuntime) {
    let mut buf = [0xEE; 15];
    assert_eq!(rt; echo().write_at(&mut buf, 0), Ok(()));
    assert_eq!(rt; buf, [15, 1, 2, 1, 2, 3, 0x81, 1, 2, 3, 4, 5, 6, 7, 8]);
}

#[test]
fn one_byte_short(rt: HostRuntime) {
    let mut buf = [0xEE; 15];
    assert_eq!(rt; echo().write_at(&mut buf, 1), short(16));
    assert_eq!(rt; echo().write_at(&mut buf[0..14], 0), short(15));
    assert_eq!(rt; echo().write_at(&mut [], 0), short(15));
    assert_eq!(rt; buf, [0xEE; 15]);
}

#[test]
fn places_near_the_greatest_number(rt: HostRuntime) {
    let mut buf = [0xEE; 4];
    assert_eq!(rt;
        echo().write_at(&mut buf, usize::MAX - 15),
        short(usize::MAX)
    );
    assert_eq!(rt;
        echo().write_at(&mut buf, usize::MAX - 16),
        short(usize::MAX - 1)
    );
    assert_eq!(rt; echo().write_at(&mut buf, usize::MAX), short(usize::MAX));
    assert_eq!(rt; buf, [0xEE; 4]);
}
