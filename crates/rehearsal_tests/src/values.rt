// Records as values: lengths, piles, openings judged without being opened.
use crate::given::{CARRY, FOUR, ORDER, TWO, with};
use refusals::{Fault, Layer, Refusal};
use rehearsal::{Call, Opening, Pile, RECORD_VERSION, Record, Records, record_length};
use std::test::Fail;

#[test]
fn lengths(rt: HostRuntime) {
    assert_eq!(rt; record_length(RECORD_VERSION, 1, 8), Some(14));
    assert_eq!(rt; record_length(RECORD_VERSION, 1, 255), Some(261));
    assert_eq!(rt; record_length(RECORD_VERSION, 2, 8), Some(13));
    assert_eq!(rt; record_length(RECORD_VERSION, 3, 8), Some(5));
    assert_eq!(rt; record_length(RECORD_VERSION, 4, 8), Some(20));
    assert_eq!(rt; record_length(RECORD_VERSION, 0, 8), None);
    for kind in 5..=255 {
        assert_eq!(rt; record_length(RECORD_VERSION, kind, 0), None);
    }
}

#[test]
fn piles(rt: HostRuntime) {
    assert_eq!(rt; Pile::try_from(1), Ok(Pile::DirectEntries));
    assert_eq!(rt; Pile::try_from(2), Ok(Pile::DirectLog));
    assert_eq!(rt; Pile::try_from(3), Ok(Pile::RelayEntries));
    assert_eq!(rt; Pile::try_from(4), Ok(Pile::RelayLog));
    assert_eq!(rt;
        Pile::try_from(0),
        Err(Layer::Frames.refuses(Refusal::Unknown))
    );
}

fn refused(opening: &Opening) -> Option<Fault> {
    opening.judge().err()
}

#[test]
fn openings(rt: HostRuntime) {
    let opening = Opening {
        pile: Pile::RelayLog,
        f: 1,
        rows: &[12, 12, 11, 7],
    };
    let direct = Opening {
        pile: Pile::DirectEntries,
        ..opening
    };
    let many = Opening { f: 255, ..direct };
    let wrong = Opening {
        rows: &[14, 13, 11, 15],
        ..opening
    };
    let fine = Opening {
        rows: &FOUR[6..],
        ..opening
    };
    let carriers = Layer::Carriers;
    assert_eq!(rt;
        refused(&opening),
        Some(carriers.refuses(Refusal::Thin(0, 1, 12)))
    );
    assert_eq!(rt;
        refused(&direct),
        Some(carriers.refuses(Refusal::Thin(0, 1, 0)))
    );
    assert_eq!(rt; refused(&many), Some(carriers.refuses(Refusal::Size(4))));
    assert_eq!(rt; refused(&wrong), Some(carriers.refuses(Refusal::Row(3))));
    assert_eq!(rt; refused(&fine), None);
}

#[test]
fn records(rt: HostRuntime) -> Result<(), Fail> {
    let due = Opening {
        pile: Pile::DirectEntries,
        f: 0,
        rows: &[2, 1],
    };
    let unknown = Layer::Frames.refuses(Refusal::Unknown);
    let open = Record::from_bytes(&TWO)?;
    assert_eq!(rt; open, Record::Open(due));
    assert_eq!(rt; open.opening(), Ok(due));
    assert_eq!(rt; open.call(), Err(unknown));
    let order = Record::from_bytes(&ORDER)?;
    assert_eq!(rt; order.call(), Ok(Call::Order(0, 0, 0x01012C000E100C01)));
    assert_eq!(rt; order.opening(), Err(unknown));
    let carry = Record::from_bytes(&[5, 1, 3, 1, 2])?;
    assert_eq!(rt; carry, Record::Call(Call::Carry(258)));
    let no_bytes = Record::from_bytes(&[]);
    assert_eq!(rt; no_bytes, Err(Layer::Frames.refuses(Refusal::Cut)));
    Ok(())
}

// What is no record ends an input.
#[test]
fn ends(rt: HostRuntime) {
    let mut records = Records {
        rest: &[5, 1, 3, 0, 7, 3, 1, 9, 5, 1, 3, 0, 0],
    };
    assert_eq!(rt; records.next(), Some(Ok(Record::Call(Call::Carry(7)))));
    assert_eq!(rt;
        records.next(),
        Some(Err(Layer::Frames.refuses(Refusal::Unknown)))
    );
    assert_eq!(rt; records.next(), None);
}
