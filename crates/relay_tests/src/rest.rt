// The notes of one order, said by hand and carried to rest over an entry list and over a put log: the same list waits at every step,
// and every craft hears every note.
use crate::flights::{five, four, note, room};
use carriers::Carrier;
use cuts::PassedChart;
use frames::Step;
use links::{Entry, EntryList, LinkService};
use putlog::PutLog;
use relay::Relay;
use std::process::Abort;
use std::test::Fail;

// A carrier whose waiting entries can be looked at.
trait Shown {
    fn shown(&self, k: usize) -> Option<Entry>;
}

impl<L: LinkService> Shown for Relay<L> {
    fn shown(&self, k: usize) -> Option<Entry> {
        self.entry(k)
    }
}

// The same entries wait, in the same order.
fn same_list<A: Carrier + Shown, B: Carrier + Shown>(rt: &impl Abort, a: &A, b: &B) {
    assert_eq!(rt; a.waiting(), b.waiting());
    assert!(rt; (0..a.waiting()).all(|k| a.shown(k) == b.shown(k)));
}

// Craft 0 sends, and every craft echoes and is ready.
fn say_all<A: Carrier>(a: &mut A) -> Result<(), Fail> {
    a.say(0, note(Step::Send))?;
    for craft in 0..a.craft() {
        a.say(craft, note(Step::Echo))?;
        a.say(craft, note(Step::Ready))?;
    }
    Ok(())
}

// Carries in both the same frame, picked by the turn and by how many wait, until nothing waits. Answers how often.
fn carry_all<A: Carrier + Shown, B: Carrier + Shown, F: Fn(usize, usize) -> usize>(
    rt: &impl Abort,
    a: &mut A,
    b: &mut B,
    pick: &F,
) -> Result<usize, Fail>
    requires { F.IsAlwaysCallable pick.now }
{
    for carried in 0..2000 {
        same_list(rt, a, b);
        let waiting = a.waiting();
        if waiting == 0 {
            return Ok(carried);
        }
        let k = pick(carried, waiting);
        assert_eq!(rt; a.carry(k), b.carry(k));
    }
    Ok(2000)
}

// Every craft heard every note of every author, and none of a label that no craft has.
fn all_heard<A: Carrier>(rt: &impl Abort, a: &A) {
    for listener in 0..a.craft() {
        assert!(rt; a.heard(listener, 0, &note(Step::Send)));
        assert!(rt; !a.heard(listener, a.craft(), &note(Step::Echo)));
        for author in 0..a.craft() {
            assert!(rt; a.heard(listener, author, &note(Step::Echo)));
            assert!(rt; a.heard(listener, author, &note(Step::Ready)));
        }
    }
}

fn compare<A: Carrier + Shown, B: Carrier + Shown, F: Fn(usize, usize) -> usize>(
    rt: &impl Abort,
    a: &mut A,
    b: &mut B,
    pick: &F,
) -> Result<usize, Fail>
    requires { F.IsAlwaysCallable pick.now }
{
    say_all(a)?;
    say_all(b)?;
    let carried = carry_all(rt, a, b, pick)?;
    assert_eq!(rt; a.waiting(), 0);
    all_heard(rt, a);
    all_heard(rt, b);
    Ok(carried)
}

fn run<L: LinkService + Drop, M: LinkService + Drop, F: Fn(usize, usize) -> usize>(
    rt: &impl Abort,
    links: L,
    log: M,
    chart: PassedChart,
    pick: &F,
) -> Result<usize, Fail>
    requires { F.IsAlwaysCallable pick.now }
{
    let mut a = Relay::open(links, chart)?;
    let mut b = Relay::open(log, chart)?;
    compare(rt, &mut a, &mut b, pick)
}

// How many carries that takes was worked out by a model of the relay in another language, which shares no code with this.
#[test]
fn four_linked_craft_come_to_rest(rt: HostRuntime) -> Result<(), Fail> {
    let mut list = room();
    let carried = run(
        &rt,
        EntryList::new(&mut list),
        PutLog::new(),
        four()?,
        &|_, _| 0,
    )?;
    assert_eq!(rt; carried, 81);
    Ok(())
}

#[test]
fn five_craft_with_a_link_missing_come_to_rest(rt: HostRuntime) -> Result<(), Fail> {
    let mut list = room();
    let first = run(
        &rt,
        EntryList::new(&mut list),
        PutLog::new(),
        five()?,
        &|_, _| 0,
    )?;
    assert_eq!(rt; first, 159);
    // now the first that waits and now the last
    let mixed = run(
        &rt,
        EntryList::new(&mut list),
        PutLog::new(),
        five()?,
        &|turn, waiting: usize| {
            if turn % 2 == 1 {
                waiting.saturating_sub(1)
            } else {
                0
            }
        },
    )?;
    assert_eq!(rt; mixed, 159);
    Ok(())
}
