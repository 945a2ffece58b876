// One craft astray among five of which 0 and 1 are not linked, over both link services: what it makes up alone is not heard.
use crate::flights::{five, note, room, send};
use carriers::{Carrier, Heard};
use frames::Step;
use links::{EntryList, LinkService};
use putlog::PutLog;
use refusals::{Fault, Layer, Refusal};
use relay::Relay;
use std::process::Abort;
use std::test::Fail;

// The same few lines as in other crates of tests: sharing them would take a crate for them alone.
fn refused(refusal: Refusal) -> Option<Fault> {
    Some(Layer::Carriers.refuses(refusal))
}

// Craft 2 makes up a note of craft 0, by many paths; each goes through 2, so nobody hears it.
fn makes_up<C: Carrier>(rt: &impl Abort, c: &mut C) -> Result<(), Fail> {
    c.meddle(2, 1, send(0))?;
    c.meddle(2, 1, send(0b01000))?;
    c.meddle(2, 1, send(0b10000))?;
    c.meddle(2, 3, send(0b10000))?;
    assert_eq!(rt; c.astray(), 0b00100);
    assert_eq!(rt; c.meddle(3, 1, send(0)).err(), refused(Refusal::Astray(3)));
    assert_eq!(rt; c.meddle(0, 1, send(0)).err(), refused(Refusal::NoLink(0)));
    for _ in 0..200 {
        if c.waiting() == 0 {
            return Ok(());
        }
        assert_eq!(rt; c.carry(0), Ok(None));
    }
    assert!(rt; false);
    Ok(())
}

// Nobody heard it, and craft 0 did not say it.
fn unheard<C: Carrier>(rt: &impl Abort, c: &C) {
    assert!(rt; (0..c.craft()).all(|listener| !c.heard(listener, 0, &note(Step::Send))));
}

// Then craft 0 says it: craft 2 hears it over the link, and 1 as soon as it came by two paths.
fn says<C: Carrier>(rt: &impl Abort, c: &mut C) -> Result<(), Fail> {
    c.say(0, note(Step::Send))?;
    assert_eq!(rt; c.waiting(), 3);
    let heard = Heard {
        note: note(Step::Send),
        listener: 2,
        author: 0,
    };
    assert_eq!(rt; c.carry(0), Ok(Some(heard)));
    for _ in 0..200 {
        if c.waiting() == 0 {
            return Ok(());
        }
        assert!(rt; c.carry(0).is_ok());
    }
    assert!(rt; false);
    Ok(())
}

fn all_heard<C: Carrier>(rt: &impl Abort, c: &C) {
    assert!(rt; (0..c.craft()).all(|listener| c.heard(listener, 0, &note(Step::Send))));
}

fn attack<C: Carrier>(rt: &impl Abort, c: &mut C) -> Result<(), Fail> {
    assert_eq!(rt; c.spare(), 120);
    makes_up(rt, c)?;
    unheard(rt, c);
    says(rt, c)?;
    all_heard(rt, c);
    Ok(())
}

fn run<L: LinkService + Drop>(rt: &impl Abort, links: L) -> Result<(), Fail> {
    let mut carrier = Relay::open(links, five()?)?;
    attack(rt, &mut carrier)
}

#[test]
fn what_one_craft_makes_up_is_not_heard(rt: HostRuntime) -> Result<(), Fail> {
    let mut list = room();
    run(&rt, EntryList::new(&mut list))?;
    run(&rt, PutLog::new())
}

fn open_refused<L: LinkService + Drop>(
    rt: &impl Abort,
    links: L,
    needed: usize,
) -> Result<(), Fail> {
    let refusal = Relay::open(links, five()?).err();
    assert_eq!(rt; refusal, Some(Layer::Links.refuses(Refusal::Short(needed))));
    Ok(())
}

#[test]
fn opening_hands_on_the_refusal_of_the_links(rt: HostRuntime) -> Result<(), Fail> {
    let mut list = room();
    open_refused(&rt, EntryList::new(&mut list[0..1007]), 1008)
}
