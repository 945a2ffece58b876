// Three notes are said and carried to rest over an entry list and over a put log, with the same answers.
use crate::four::{echo, four, room};
use carriers::{Carrier, Direct};
use frames::Note;
use links::{EntryList, LinkService};
use putlog::PutLog;
use std::process::Abort;
use std::test::Fail;

// Says a note in both, and refuses it alike of a craft that is none.
fn say_both<A: Carrier, B: Carrier>(rt: &impl Abort, a: &mut A, b: &mut B, author: u8, note: Note) {
    assert_eq!(rt; a.say(author, note), b.say(author, note));
    assert_eq!(rt; a.say(4, note), b.say(4, note));
    assert!(rt; a.say(4, note).is_err());
    assert_eq!(rt; a.waiting(), b.waiting());
}

// Carries the first frame in both.
fn carry_both<A: Carrier, B: Carrier>(rt: &impl Abort, a: &mut A, b: &mut B) {
    assert_eq!(rt; a.carry(0), b.carry(0));
    assert_eq!(rt; a.waiting(), b.waiting());
}

// Every craft heard the note.
fn all_heard<A: Carrier>(rt: &impl Abort, a: &A, author: u8, note: &Note) {
    assert!(rt; (0..4).all(|listener| a.heard(listener, author, note)));
    assert!(rt; !a.heard(4, author, note));
}

// Three notes, nine frames, and the same count of what waits at every step.
fn compare<A: Carrier, B: Carrier>(rt: &impl Abort, a: &mut A, b: &mut B) {
    say_both(rt, a, b, 0, echo(5));
    say_both(rt, a, b, 2, echo(5));
    say_both(rt, a, b, 3, echo(9));
    // said again, which changes nothing
    say_both(rt, a, b, 3, echo(9));
    assert_eq!(rt; a.waiting(), 9);
    assert_eq!(rt; a.toil(), 9);
    for _ in 0..9 {
        carry_both(rt, a, b);
    }
    assert_eq!(rt; a.waiting(), 0);
    assert_eq!(rt; a.toil(), 0);
    assert!(rt; a.carry(0).is_err());
    all_heard(rt, a, 0, &echo(5));
    all_heard(rt, a, 2, &echo(5));
    all_heard(rt, a, 3, &echo(9));
    all_heard(rt, b, 0, &echo(5));
    all_heard(rt, b, 2, &echo(5));
    all_heard(rt, b, 3, &echo(9));
    assert!(rt; !a.heard(0, 1, &echo(5)));
}

fn run<L: LinkService + Drop, M: LinkService + Drop>(
    rt: &impl Abort,
    links: L,
    log: M,
) -> Result<(), Fail> {
    let chart = four()?;
    let mut a = Direct::open(links, chart)?;
    let mut b = Direct::open(log, chart)?;
    compare(rt, &mut a, &mut b);
    Ok(())
}

#[test]
fn both_services_carry_alike(rt: HostRuntime) -> Result<(), Fail> {
    let mut list = room();
    run(&rt, EntryList::new(&mut list), PutLog::new())
}
