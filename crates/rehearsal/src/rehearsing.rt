// Rehearsals.
ghost use Rattle.std.specs.Prelude.{◌≡◌, IfOk, None, vec_len};
ghost use Rattle.refusals.specs.Refusals.{refusal};
ghost use Rattle.links.specs.Calls.{start_causes};
ghost use Rattle.links.specs.EntryLists.{list_length};
ghost use Rattle.cuts.specs.Causes.{open_direct_causes, open_relay_causes};
ghost use Rattle.agreement.specs.Meanings.{Fresh};
ghost use Rattle.rehearsal.specs.Openings.{pile_causes};
ghost use Rattle.rehearsal.specs.Records.{OpeningNext, CallNext};
ghost use Rattle.rehearsal.specs.Runs.{Flies};
ghost use Rattle.rehearsal.specs.Rehearsals.{OverDirect, OverRelay, OverPile, Opened, Rehearsed};

use crate::answers::{Outcome, add_line, line_of};
use crate::calls::step;
use crate::piles::Pile;
use crate::reading::Records;
use crate::records::{Call, Opening, Record};
use carriers::{Carrier, Direct};
use cuts::{open_direct, open_relay};
use flight::Flight;
use links::{Entry, EntryList, LinkService};
use matter::AnyMatter;
use putlog::PutLog;
use refusals::{Fault, Layer, Refusal};
use relay::Relay;
use std::alloc::{AllocError, Global};

// The opening that a first record is due to be; 14, 15, 16.
fn due_opening(read: Result<Record<'_>, Fault>) -> Result<Opening<'_>, Fault>
    ensures { OpeningNext read.entry result }
{
    read?.opening()
}

// The call that a later record is due to be; 14, 15, 16.
fn due_call(read: Result<Record, Fault>) -> Result<Call, Fault>
    ensures { CallNext read.entry result }
{
    read?.call()
}

// The records after an opening, over the carrier that it opened.
fn fly<C: Carrier + Drop>(
    alloc: Global,
    carrier: C,
    records: Records,
) -> Result<Vec<u8>, AllocError>
    requires sound { C.sound carrier }
    requires fresh { Fresh (C.meaning carrier) }
    ensures { IfOk result (λ text. Flies C.meaning C.sound C.G C.says C.carries C.meddles
        carrier records.entry.rest.now text.items) }
{
    let mut out = line_of(alloc, 1, &Outcome::Done)?;
    let mut flight: Flight<C, AnyMatter> = Flight::open(carrier);
    for (index, record) in records.enumerate() {
        let count = index + 2;
        let call = due_call(record);
        match call {
            Ok(call) => step(alloc, &mut flight, count, &call, &mut out)?,
            Err(fault) => {
                add_line(alloc, count, &Outcome::Refused(fault), &mut out)?;
                return Ok(out);
            }
        }
    }
    Ok(out)
}

// The opening that a direct carrier over a link service that starts is opened by, and the records after it.
fn fly_direct<L: LinkService + Drop>(
    alloc: Global,
    links: L,
    opening: &Opening,
    records: Records,
) -> Result<Vec<u8>, AllocError>
    requires { refusal (start_causes (L.meaning links)) ≡ None }
    ensures { IfOk result (λ text.
        Opened (open_direct_causes opening.now.rows.now opening.now.f)
        (OverDirect L.meaning opening.now.rows.now opening.now.f records.entry.rest.now)
        text.items) }
{
    let chart = match open_direct(opening.rows, opening.f) {
        Ok(chart) => chart,
        Err(fault) => return line_of(alloc, 1, &Outcome::Refused(fault)),
    };
    let Ok(carrier) = Direct::open(links, chart) else {
        unreachable!()
    };
    fly(alloc, carrier, records)
}

// The same with a relay.
fn fly_relay<L: LinkService + Drop>(
    alloc: Global,
    links: L,
    opening: &Opening,
    records: Records,
) -> Result<Vec<u8>, AllocError>
    requires { refusal (start_causes (L.meaning links)) ≡ None }
    ensures { IfOk result (λ text.
        Opened (open_relay_causes opening.now.rows.now opening.now.f)
        (OverRelay L.meaning opening.now.rows.now opening.now.f records.entry.rest.now)
        text.items) }
{
    let chart = match open_relay(opening.rows, opening.f) {
        Ok(chart) => chart,
        Err(fault) => return line_of(alloc, 1, &Outcome::Refused(fault)),
    };
    let Ok(carrier) = Relay::open(links, chart) else {
        unreachable!()
    };
    fly(alloc, carrier, records)
}

// The entries that an entry list works in.
fn lent_entries(alloc: Global) -> Result<Vec<Entry>, AllocError>
    ensures { IfOk result (λ entries. vec_len entries ≡ list_length) }
{
    vec![in alloc; Entry::default(); EntryList::LENGTH]
}

// The pile that is named, opened and flown.
fn fly_pile(alloc: Global, opening: &Opening, records: Records) -> Result<Vec<u8>, AllocError>
    ensures { IfOk result (λ text.
        Opened (pile_causes opening.now.pile opening.now.rows.now opening.now.f)
        (OverPile opening.now.pile opening.now.rows.now opening.now.f records.entry.rest.now)
        text.items) }
{
    match opening.pile {
        Pile::DirectEntries => {
            let mut entries = lent_entries(alloc)?;
            fly_direct(alloc, EntryList::new(&mut entries), opening, records)
        }
        Pile::DirectLog => fly_direct(alloc, PutLog::new(), opening, records),
        Pile::RelayEntries => {
            let mut entries = lent_entries(alloc)?;
            fly_relay(alloc, EntryList::new(&mut entries), opening, records)
        }
        Pile::RelayLog => fly_relay(alloc, PutLog::new(), opening, records),
    }
}

/// The text of a whole input: a line for each record, and one for each booking, after the record that delivered. An input of no bytes is `0 refused 14`.
/// Want of memory is an error, and then there is no text.
pub fn rehearse(alloc: Global, input: &[u8]) -> Result<Vec<u8>, AllocError>
    ensures { IfOk result (λ text. Rehearsed input.now text.items) }
{
    let mut records = Records { rest: input };
    let Some(first) = records.next() else {
        let cut = Layer::Frames.refuses(Refusal::Cut);
        return line_of(alloc, 0, &Outcome::Refused(cut));
    };
    let opening = due_opening(first);
    match opening {
        Ok(opening) => fly_pile(alloc, &opening, records),
        Err(fault) => line_of(alloc, 1, &Outcome::Refused(fault)),
    }
}
