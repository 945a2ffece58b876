// The relay as a carrier.
ghost use Rattle.std.specs.Prelude.{◌≡◌, ℕ};
ghost use Rattle.links.specs.Calls.{EntryAt};
ghost use Rattle.relay.specs.Relays.{means, Sound, telling_of, SaysRelay, CarriesRelay, MeddlesRelay, Opens};
ghost use Rattle.relay.specs.Passing.{PassesOn};
ghost use Rattle.bases.specs.Parts.{parts};
ghost use Rattle.relay.specs.Steps;

use crate::kinds::Relay;
use agreement::LawfulCarrier;
use bases::Base;
use carriers::{Carrier, Heard, OpenedCarrier, judge_carry};
use cuts::PassedChart;
use frames::{Frame, Note};
use links::{Entry, LinkService};
use pathsets::{Listener, Outcome, take_in_at};
use refusals::Fault;
use sets::{CraftSet, LABELS};

// Puts the entry's note on, with the outcome's set, from the craft that it came to; where nobody is to be told, nothing is put.
fn pass_on<L: LinkService>(links: &mut L, entry: &Entry, out: &Outcome) -> Result<(), Fault>
    ensures { PassesOn (L.LinkService.meaning links.old) entry.now out.now result (L.LinkService.meaning links.new) }
{
    let to = out.to();
    if to == 0 {
        return Ok(());
    }
    let frame = Frame {
        set: out.set(),
        ..entry.frame
    };
    links.put(entry.to, to, frame)
}

impl<L: LinkService + Drop> Relay<L> {
    // A relay over the link service, on a chart that passed; 13 of the link service's start, and nothing else.
    pub fn open(links: L, chart: PassedChart) -> Result<Relay<L>, Fault>
        ensures { Opens L.LinkService.meaning links chart result }
    {
        let base = Base::start(links, &chart.chart)?;
        Ok(Relay {
            base,
            passed: chart,
        })
    }
}

impl<L: LinkService> Relay<L> {
    // The entry that waits at an index.
    pub fn entry(&self, k: usize) -> Option<Entry>
        ensures { EntryAt (L.LinkService.meaning self.now.base.store.links).waiting k result }
    {
        self.base.store.links.entry(k)
    }
}

impl<L: LinkService> LawfulCarrier for Relay<L> {
    ghost meaning = { means L.LinkService.meaning };

    ghost sound = { Sound L.LinkService.meaning };

    ghost lawful = { λ s h. Steps.lawful s.passed (parts L.LinkService.meaning s.base) h };
}

impl<L: LinkService> Carrier for Relay<L> {
    // 256 label sets at each of at most seven other craft, each counted eight times, and one frame to each of the seven.
    const G: u64 = 14343;

    ghost G = { 14343 };

    ghost tells = { telling_of L.LinkService.meaning };

    ghost says = { SaysRelay L.LinkService.meaning };

    ghost carries = { CarriesRelay L.LinkService.meaning };

    ghost meddles = { MeddlesRelay L.LinkService.meaning };

    fn say(&mut self, author: u8, note: Note) -> Result<(), Fault> {
        // a copy: a part with ghost fields that is lent comes back as another proof of its facts
        let chart = self.passed.chart;
        self.base.say(&chart, author, note)
    }

    fn carry(&mut self, k: usize) -> Result<Option<Heard>, Fault> {
        let waiting = self.waiting();
        let spare = self.spare();
        judge_carry(waiting, spare, k)?;
        let entry = self.base.store.links.take(k)?;
        let at = Listener {
            n: self.passed.chart.n,
            f: self.passed.f,
            craft: entry.to,
            neighbours: self.passed.chart.row(entry.to),
        };
        let out = take_in_at(&mut self.base.store.table, &at, entry.from, &entry.frame);
        pass_on(&mut self.base.store.links, &entry, &out)?;
        if !out.heard() {
            return Ok(None);
        }
        Ok(Some(Heard {
            note: entry.frame.note,
            listener: entry.to,
            author: entry.frame.author,
        }))
    }

    fn meddle(&mut self, c: u8, to: u8, frame: Frame) -> Result<(), Fault> {
        let chart = self.passed.chart;
        let f = self.passed.f;
        self.base.meddle(&chart, f, c, to, frame)
    }

    // From here on a line each, as in every carrier: the fields are each type's own.
    fn craft(&self) -> u8 {
        self.passed.chart.n
    }

    fn most_astray(&self) -> u8 {
        self.passed.f
    }

    fn waiting(&self) -> usize {
        self.base.store.links.waiting()
    }

    fn spare(&self) -> usize {
        self.base.spare()
    }

    fn toil(&self) -> u128 {
        self.waiting() as u128 + u128::from(LABELS) * self.all_open()
    }

    fn astray(&self) -> CraftSet {
        self.base.astray
    }

    fn heard(&self, listener: u8, author: u8, note: &Note) -> bool {
        self.base.store.table.covers(listener, author, note, 0)
    }

    fn row(&self, craft: u8) -> CraftSet {
        self.passed.chart.row(craft)
    }
}

impl<L: LinkService + Drop> OpenedCarrier for Relay<L> {
    // a link service and a chart
    type From = (L, PassedChart);

    ghost opens = { λ from r. Opens L.LinkService.meaning from.0 from.1 r };

    fn open_from(from: Self::From) -> Result<Relay<L>, Fault> {
        let (links, chart) = from;
        Relay::open(links, chart)
    }
}
