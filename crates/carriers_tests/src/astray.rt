// One craft astray among four, over both link services: what is heard of it, and every refusal with its value.
use crate::four::{echo, four, frame, room};
use carriers::{Carrier, Direct, Heard};
use frames::{Frame, Note};
use links::{EntryList, LinkService};
use putlog::PutLog;
use refusals::{Fault, Layer, Refusal};
use std::process::Abort;
use std::test::Fail;

// The same few lines as in other crates of tests: sharing them would take a crate for them alone.
fn refused(refusal: Refusal) -> Option<Fault> {
    Some(Layer::Carriers.refuses(refusal))
}

// Refusals of says and carries: nothing is said, and nothing waits.
fn refuses_says<C: Carrier>(rt: &impl Abort, c: &mut C) {
    assert_eq!(rt; c.say(4, echo(1)).err(), refused(Refusal::Label(4)));
    let bad = Note {
        number: 4,
        ..echo(1)
    };
    assert_eq!(rt; c.say(0, bad).err(), refused(Refusal::Number(4)));
    assert!(rt; !c.heard(0, 0, &bad));
    assert_eq!(rt; c.carry(0).err(), refused(Refusal::Index(0)));
    assert_eq!(rt; c.judge_carry(0).err(), refused(Refusal::Index(0)));
    assert_eq!(rt; c.waiting(), 0);
}

// Refusals of meddles: the meddler's label first, and nobody is astray.
fn refuses_meddles<C: Carrier>(rt: &impl Abort, c: &mut C) {
    assert_eq!(rt;
        c.meddle(9, 8, frame(0, 1)).err(),
        refused(Refusal::Label(9))
    );
    assert_eq!(rt;
        c.meddle(3, 8, frame(0, 1)).err(),
        refused(Refusal::Label(8))
    );
    assert_eq!(rt;
        c.meddle(3, 3, frame(0, 1)).err(),
        refused(Refusal::NoLink(3))
    );
    assert_eq!(rt; c.judge_meddle(3, 3).err(), refused(Refusal::NoLink(3)));
    assert!(rt; c.judge_meddle(3, 2).is_ok());
    assert_eq!(rt; c.astray(), 0);
    assert_eq!(rt; c.waiting(), 0);
}

// Craft 3 sends in the name of another, over a made-up path, and two words of its own to two craft; nobody else may meddle then.
fn meddles<C: Carrier>(rt: &impl Abort, c: &mut C) -> Result<(), Fail> {
    c.meddle(3, 0, frame(1, 5))?;
    let through = Frame {
        set: 0b0010,
        ..frame(3, 5)
    };
    c.meddle(3, 0, through)?;
    c.meddle(3, 0, frame(3, 6))?;
    c.meddle(3, 1, frame(3, 7))?;
    assert_eq!(rt; c.astray(), 0b1000);
    assert_eq!(rt;
        c.meddle(2, 0, frame(2, 5)).err(),
        refused(Refusal::Astray(2))
    );
    assert_eq!(rt; c.waiting(), 4);
    Ok(())
}

// The first two are dropped; of the others each is heard by the craft that it went to, and by no other.
fn hears<C: Carrier>(rt: &impl Abort, c: &mut C) {
    assert_eq!(rt; c.carry(0), Ok(None));
    assert_eq!(rt; c.carry(0), Ok(None));
    let heard = Heard {
        note: echo(7),
        listener: 1,
        author: 3,
    };
    assert_eq!(rt; c.carry(1), Ok(Some(heard)));
    assert_eq!(rt; c.waiting(), 1);
    assert!(rt; !c.heard(0, 3, &echo(6)));
    assert_eq!(rt; c.carry(0).is_ok(), true);
    assert!(rt; c.heard(0, 3, &echo(6)));
    assert!(rt; !c.heard(0, 3, &echo(7)));
    assert!(rt; !c.heard(0, 1, &echo(5)));
    // it did not say them itself
    assert!(rt; !c.heard(3, 3, &echo(7)));
}

fn run<L: LinkService + Drop>(rt: &impl Abort, links: L) -> Result<(), Fail> {
    let mut carrier = Direct::open(links, four()?)?;
    assert_eq!(rt; carrier.spare(), 120);
    refuses_says(rt, &mut carrier);
    refuses_meddles(rt, &mut carrier);
    meddles(rt, &mut carrier)?;
    hears(rt, &mut carrier);
    Ok(())
}

#[test]
fn a_craft_astray_is_heard_only_as_itself(rt: HostRuntime) -> Result<(), Fail> {
    let mut list = room();
    run(&rt, EntryList::new(&mut list))?;
    run(&rt, PutLog::new())
}

fn open_refused<L: LinkService + Drop>(
    rt: &impl Abort,
    links: L,
    needed: usize,
) -> Result<(), Fail> {
    let refusal = Direct::open(links, four()?).err();
    assert_eq!(rt; refusal, Some(Layer::Links.refuses(Refusal::Short(needed))));
    Ok(())
}

#[test]
fn opening_hands_on_the_refusal_of_the_links(rt: HostRuntime) -> Result<(), Fail> {
    let mut list = room();
    open_refused(&rt, EntryList::new(&mut list[0..1007]), 1008)
}
