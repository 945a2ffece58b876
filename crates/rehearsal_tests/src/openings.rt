// Opens: every pile, and why one is refused.
use crate::given::{CARRY, FOUR, MEDDLE, ORDER, TWO, gives, with};
use std::test::Fail;

// The listing of two craft, which is the same on each pile.
const LISTING: &str = "1 done\n2 done\n3 heard 1 0 1\n4 heard 1 0 2\nbook 1 0 0 01012c000e100c01\n\
    5 heard 0 1 2\nbook 0 0 0 01012c000e100c01\n6 heard 0 1 3\n7 heard 1 0 3\n8 refused 7\n";

#[test]
fn piles(rt: HostRuntime) -> Result<(), Fail> {
    for pile in 1..5 {
        gives(
            &rt,
            &[
                &with(TWO, 3, pile),
                &ORDER,
                &CARRY,
                &CARRY,
                &CARRY,
                &CARRY,
                &CARRY,
                &CARRY,
            ],
            LISTING,
        )?;
    }
    for pile in 5..=255 {
        gives(&rt, &[&with(TWO, 3, pile), &ORDER], "1 refused 16\n")?;
    }
    gives(&rt, &[&with(TWO, 3, 0), &ORDER], "1 refused 16\n")
}

// An unknown pile is told after length and version, and ahead of what its test would be refused by.
#[test]
fn piles_in_their_turn(rt: HostRuntime) -> Result<(), Fail> {
    let unknown = with(TWO, 3, 9);
    gives(&rt, &[&with(unknown, 5, 255), &ORDER], "1 refused 16\n")?;
    gives(&rt, &[&with(unknown, 1, 2), &ORDER], "1 refused 15\n")?;
    gives(&rt, &[&with(unknown, 4, 3), &ORDER], "1 refused 14\n")
}

#[test]
fn sizes(rt: HostRuntime) -> Result<(), Fail> {
    gives(&rt, &[&[6, 1, 1, 1, 0, 0], &ORDER], "1 refused 2\n")?;
    gives(&rt, &[&[7, 1, 1, 1, 1, 0, 0], &ORDER], "1 refused 2\n")?;
    gives(
        &rt,
        &[&[15, 1, 1, 1, 9, 0, 0, 0, 0, 0, 0, 0, 0, 0, 0], &ORDER],
        "1 refused 2\n",
    )?;
    gives(&rt, &[&with(TWO, 5, 1), &ORDER], "1 refused 2\n")?;
    gives(&rt, &[&with(TWO, 5, 255), &ORDER], "1 refused 2\n")?;
    // 255 craft, in a record longer than a length byte can say
    gives(&rt, &[&[255, 1, 1, 1, 255], &[0; 250]], "1 refused 14\n")?;
    // 249 craft, in the longest record
    gives(&rt, &[&[255, 1, 1, 1, 249], &[0; 250]], "1 refused 2\n")
}

#[test]
fn charts(rt: HostRuntime) -> Result<(), Fail> {
    // craft 0 names itself; craft 1 names nobody
    gives(&rt, &[&with(TWO, 6, 3), &ORDER], "1 refused 3\n")?;
    gives(&rt, &[&with(TWO, 7, 0), &ORDER], "1 refused 3\n")?;
    // craft 0 and 1 are not linked
    let thin = with(with(FOUR, 6, 12), 7, 12);
    gives(&rt, &[&thin, &MEDDLE], "1 refused 4\n")?;
    gives(&rt, &[&with(thin, 3, 4), &MEDDLE], "1 refused 4\n")?;
    // five such craft pass as a relay
    let five = [11, 1, 1, 4, 5, 1, 28, 28, 27, 23, 15];
    gives(&rt, &[&five, &MEDDLE], "1 done\n2 refused 9\n")?;
    gives(&rt, &[&with(five, 3, 2), &MEDDLE], "1 refused 4\n")
}
