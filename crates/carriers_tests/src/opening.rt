// A carrier opened by code that knows only that its type can be opened: the bound says that it is fresh and sound.
ghost use Rattle.std.specs.Prelude.{◌≡◌, Result, IfOk, true};
ghost use Rattle.agreement.specs.Meanings.{Fresh};

use crate::four::{four, room};
use carriers::{Direct, OpenedCarrier};
use links::EntryList;
use putlog::PutLog;
use refusals::Fault;
use std::test::Fail;

fn opened<C: OpenedCarrier>(from: C::From) -> Result<C, Fault>
    ensures fresh { IfOk result (λ c. Fresh (C.meaning c)) }
    ensures kept { IfOk result (λ c. C.sound c) }
{
    C::open_from(from)
}

// Whether nothing waits, nobody is astray and 64 calls have room; so it is, of every carrier.
fn opens_at_rest<C: OpenedCarrier + Drop>(from: C::From) -> Result<bool, Fault>
    ensures { IfOk result (λ rests. rests ≡ true) }
{
    let carrier: C = opened(from)?;
    let (waiting, astray, spare) = (carrier.waiting(), carrier.astray(), carrier.spare());
    Ok(waiting == 0 && astray == 0 && spare >= 64)
}

#[test]
fn direct_carriers_open_at_rest(rt: HostRuntime) -> Result<(), Fail> {
    let chart = four()?;
    let mut list = room();
    assert!(&rt; opens_at_rest::<Direct<PutLog>>((PutLog::new(), chart))?);
    assert!(&rt; opens_at_rest::<Direct<EntryList>>((EntryList::new(&mut list), chart))?);
    Ok(())
}
