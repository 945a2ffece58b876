// Records by their bytes: cut off, of another length, version or kind.
use crate::given::{CARRY, MEDDLE, ORDER, TWO, gives, with};
use std::test::Fail;

#[test]
fn no_bytes(rt: HostRuntime) -> Result<(), Fail> {
    gives(&rt, &[], "0 refused 14\n")
}

// An open, an order and a meddle, cut off after so many bytes.
#[test]
fn cut_off(rt: HostRuntime) -> Result<(), Fail> {
    for end in 1..8 {
        gives(&rt, &[&TWO[..end]], "1 refused 14\n")?;
    }
    for end in 1..13 {
        gives(&rt, &[&TWO, &ORDER[..end]], "1 done\n2 refused 14\n")?;
    }
    for end in 1..5 {
        gives(&rt, &[&TWO, &CARRY[..end]], "1 done\n2 refused 14\n")?;
    }
    for end in 1..20 {
        gives(&rt, &[&TWO, &MEDDLE[..end]], "1 done\n2 refused 14\n")?;
    }
    gives(&rt, &[&TWO], "1 done\n")
}

#[test]
fn first_bytes(rt: HostRuntime) -> Result<(), Fail> {
    for byte in 0..=255 {
        let due = if byte == 8 {
            "1 done\n2 done\n"
        } else {
            "1 refused 14\n"
        };
        gives(&rt, &[&with(TWO, 0, byte), &ORDER], due)?;
    }
    Ok(())
}

// One byte more than the kind has, in a record that says so.
#[test]
fn lengths(rt: HostRuntime) -> Result<(), Fail> {
    gives(&rt, &[&with(TWO, 0, 9), &[0]], "1 refused 14\n")?;
    gives(
        &rt,
        &[&TWO, &with(ORDER, 0, 14), &[0]],
        "1 done\n2 refused 14\n",
    )?;
    gives(
        &rt,
        &[&TWO, &with(CARRY, 0, 6), &[0]],
        "1 done\n2 refused 14\n",
    )?;
    gives(
        &rt,
        &[&TWO, &with(MEDDLE, 0, 21), &[0]],
        "1 done\n2 refused 14\n",
    )?;
    gives(&rt, &[&TWO, &[4, 1, 3, 0]], "1 done\n2 refused 14\n")
}

// Ahead of what the call would be refused by: 14 of either, then 15 of either, then 16 of either.
#[test]
fn frames_in_records(rt: HostRuntime) -> Result<(), Fail> {
    let step = with(MEDDLE, 7, 0);
    let version = with(step, 6, 0);
    let length = with(version, 5, 14);
    gives(&rt, &[&TWO, &step, &ORDER], "1 done\n2 refused 16\n")?;
    gives(
        &rt,
        &[&TWO, &with(MEDDLE, 7, 4), &ORDER],
        "1 done\n2 refused 16\n",
    )?;
    gives(&rt, &[&TWO, &version, &ORDER], "1 done\n2 refused 15\n")?;
    gives(&rt, &[&TWO, &length, &ORDER], "1 done\n2 refused 14\n")?;
    gives(
        &rt,
        &[&TWO, &with(length, 1, 2), &ORDER],
        "1 done\n2 refused 14\n",
    )?;
    gives(
        &rt,
        &[&TWO, &with(step, 1, 2), &ORDER],
        "1 done\n2 refused 15\n",
    )
}

#[test]
fn versions(rt: HostRuntime) -> Result<(), Fail> {
    gives(&rt, &[&with(TWO, 1, 2), &ORDER], "1 refused 15\n")?;
    gives(
        &rt,
        &[&TWO, &with(CARRY, 1, 0), &ORDER],
        "1 done\n2 refused 15\n",
    )?;
    gives(&rt, &[&[3, 0, 9], &ORDER], "1 refused 15\n")?;
    // a length that version 1 has not
    gives(
        &rt,
        &[&TWO, &[4, 2, 3, 0], &ORDER],
        "1 done\n2 refused 14\n",
    )
}

// Of unknown kinds any length from 3 will do.
#[test]
fn unknown_kinds(rt: HostRuntime) -> Result<(), Fail> {
    let long = with(with(with([0; 255], 0, 255), 1, 1), 2, 5);
    gives(&rt, &[&[3, 1, 0], &ORDER], "1 refused 16\n")?;
    gives(&rt, &[&[3, 1, 255], &ORDER], "1 refused 16\n")?;
    gives(&rt, &[&long, &ORDER], "1 refused 16\n")?;
    gives(&rt, &[&TWO, &[3, 1, 5], &ORDER], "1 done\n2 refused 16\n")?;
    gives(&rt, &[&TWO, &long, &ORDER], "1 done\n2 refused 16\n")?;
    gives(&rt, &[&TWO, &[2, 1, 5], &ORDER], "1 done\n2 refused 14\n")
}

// The first record is an open, and no other.
#[test]
fn opens_out_of_place(rt: HostRuntime) -> Result<(), Fail> {
    gives(&rt, &[&ORDER, &TWO], "1 refused 16\n")?;
    gives(&rt, &[&CARRY, &TWO], "1 refused 16\n")?;
    gives(&rt, &[&MEDDLE, &TWO], "1 refused 16\n")?;
    gives(&rt, &[&with(CARRY, 1, 2), &TWO], "1 refused 15\n")?;
    gives(&rt, &[&TWO, &TWO, &ORDER], "1 done\n2 refused 16\n")?;
    gives(
        &rt,
        &[&TWO, &with(TWO, 1, 2), &ORDER],
        "1 done\n2 refused 15\n",
    )?;
    gives(
        &rt,
        &[&TWO, &with(TWO, 4, 3), &ORDER],
        "1 done\n2 refused 14\n",
    )?;
    // even one that its test would refuse
    gives(
        &rt,
        &[&TWO, &with(TWO, 5, 255), &ORDER],
        "1 done\n2 refused 16\n",
    )
}
