// The toil of a relay beside values worked out by hand: what waits, and eight times the sets that are open at each craft.
use crate::flights::{five, four, note, room, send};
use carriers::Carrier;
use frames::{Frame, Step};
use links::EntryList;
use putlog::PutLog;
use relay::Relay;
use std::test::Fail;

// Craft 0 says one note to three others; each frame has the same key, and each of the three has 256 sets open for it.
#[test]
fn four_linked_craft_hear_a_note(rt: HostRuntime) -> Result<(), Fail> {
    let mut list = room();
    let mut relay = Relay::open(EntryList::new(&mut list), four()?)?;
    assert_eq!(rt; relay.toil(), 0);
    relay.say(0, note(Step::Send))?;
    assert_eq!(rt; relay.toil(), 3 + 8 * 3 * 256);
    // one of the three hears it and tells the two others
    relay.carry(0)?;
    assert_eq!(rt; relay.toil(), 4 + 8 * 2 * 256);
    let mut toil = relay.toil();
    for _ in 0..100 {
        if relay.carry(0).is_ok() {
            assert!(rt; relay.toil() < toil);
            toil = relay.toil();
        }
    }
    assert_eq!(rt; toil, 0);
    Ok(())
}

// Craft 1, which is not linked to craft 0, holds the set of craft 2 alone: half of all sets contain it.
#[test]
fn a_set_on_the_way_closes_half_of_all(rt: HostRuntime) -> Result<(), Fail> {
    let mut relay = Relay::open(PutLog::new(), five()?)?;
    relay.say(0, note(Step::Send))?;
    assert_eq!(rt; relay.toil(), 3 + 8 * 4 * 256);
    relay.carry(0)?;
    assert_eq!(rt; relay.toil(), 5 + 8 * 3 * 256);
    relay.carry(2)?;
    assert_eq!(rt; relay.toil(), 6 + 8 * (2 * 256 + 128));
    Ok(())
}

// A key counts for every craft while one frame with it waits, whether its note is sound or not, and once for two of them.
#[test]
fn a_key_of_two_frames_counts_once(rt: HostRuntime) -> Result<(), Fail> {
    let mut relay = Relay::open(PutLog::new(), four()?)?;
    let frame = Frame {
        author: 200,
        ..send(0)
    };
    relay.meddle(3, 0, frame)?;
    assert_eq!(rt; relay.toil(), 1 + 8 * 4 * 256);
    relay.meddle(3, 1, frame)?;
    assert_eq!(rt; relay.toil(), 2 + 8 * 4 * 256);
    relay.say(0, note(Step::Send))?;
    assert_eq!(rt; relay.toil(), 5 + 8 * (4 + 3) * 256);
    Ok(())
}
