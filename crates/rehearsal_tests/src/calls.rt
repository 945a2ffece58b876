// Calls that are refused go on; the texts of those that are not.
use crate::given::{CARRY, FOUR, MEDDLE, ORDER, TWO, gives, with};
use std::test::Fail;

#[test]
fn refused_orders(rt: HostRuntime) -> Result<(), Fail> {
    gives(
        &rt,
        &[&TWO, &with(ORDER, 3, 2), &ORDER],
        "1 done\n2 refused 1\n3 done\n",
    )?;
    gives(
        &rt,
        &[&TWO, &with(ORDER, 4, 4), &ORDER],
        "1 done\n2 refused 5\n3 done\n",
    )?;
    gives(
        &rt,
        &[&TWO, &ORDER, &ORDER, &CARRY],
        "1 done\n2 done\n3 refused 6\n4 heard 1 0 1\n",
    )?;
    gives(
        &rt,
        &[&TWO, &with(ORDER, 5, 0), &ORDER],
        "1 done\n2 refused 11\n3 done\n",
    )
}

// The index has its high byte first: 1 is the second frame that waits, an Echo, and 256 is none.
#[test]
fn refused_carries(rt: HostRuntime) -> Result<(), Fail> {
    let high = with(CARRY, 3, 1);
    let low = with(CARRY, 4, 1);
    let last = with(with(CARRY, 3, 255), 4, 255);
    gives(
        &rt,
        &[&TWO, &CARRY, &ORDER],
        "1 done\n2 refused 7\n3 done\n",
    )?;
    gives(
        &rt,
        &[&TWO, &ORDER, &ORDER, &low, &high, &last, &CARRY],
        "1 done\n2 done\n3 refused 6\n4 heard 1 0 2\n5 refused 7\n6 refused 7\n7 heard 1 0 1\n\
        book 1 0 0 01012c000e100c01\n",
    )
}

#[test]
fn refused_meddles(rt: HostRuntime) -> Result<(), Fail> {
    gives(
        &rt,
        &[&TWO, &with(MEDDLE, 3, 2), &ORDER],
        "1 done\n2 refused 1\n3 done\n",
    )?;
    gives(
        &rt,
        &[&TWO, &with(MEDDLE, 4, 2), &ORDER],
        "1 done\n2 refused 1\n3 done\n",
    )?;
    gives(
        &rt,
        &[&TWO, &with(MEDDLE, 4, 0), &ORDER],
        "1 done\n2 refused 9\n3 done\n",
    )?;
    gives(
        &rt,
        &[&TWO, &MEDDLE, &ORDER],
        "1 done\n2 refused 10\n3 done\n",
    )
}

// The log has 128 places, and a call needs three to be spare.
#[test]
fn no_room(rt: HostRuntime) -> Result<(), Fail> {
    let mut input = Vec::new(rt.alloc());
    for _ in 0..126 {
        input.extend_from_slice(&MEDDLE)?;
    }
    let mut due = String::new(rt.alloc());
    for count in 1..128 {
        writeln!(due, "{count} done")?;
    }
    for count in 128..131 {
        writeln!(due, "{count} refused 8")?;
    }
    gives(&rt, &[&FOUR, &input, &MEDDLE, &ORDER, &CARRY], &due)
}
