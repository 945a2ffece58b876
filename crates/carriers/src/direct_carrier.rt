// The direct carrier as a carrier.
ghost use Rattle.std.specs.Prelude.{◌≡◌, ℕ};
ghost use Rattle.carriers.specs.Directs.{parts_of, means, Sound, straight, hearing_of, SaysDirect, CarriesDirect, MeddlesDirect, Opens};
ghost use Rattle.carriers.specs.Steps;

use crate::carrier::Carrier;
use crate::direct::Direct;
use crate::heard::Heard;
use crate::judge::judge_carry;
use crate::opened_carrier::OpenedCarrier;
use crate::store::Store;
use agreement::LawfulCarrier;
use cuts::CompleteChart;
use frames::{Frame, Note};
use links::{Entry, LinkService};
use refusals::Fault;
use sets::CraftSet;

// Whether the entry came over a link, from the author of its note, with no set, and the note is sound.
fn is_straight(n: u8, entry: &Entry) -> bool
    ensures { result ≡ straight n entry.now }
{
    entry.to < n
        && entry.from < n
        && entry.from != entry.to
        && entry.frame.author == entry.from
        && entry.frame.set == 0
        && entry.frame.note.is_sound(n, entry.frame.author)
}

impl<L: LinkService + Drop> Direct<L> {
    // A carrier over the link service, on this chart; 13 of the link service's start, and nothing else.
    pub fn open(links: L, chart: CompleteChart) -> Result<Direct<L>, Fault>
        ensures { Opens L.LinkService.meaning links chart result }
    {
        let store = Store::start(links, &chart.chart)?;
        Ok(Direct {
            store,
            complete: chart,
            astray: 0,
        })
    }
}

impl<L: LinkService> LawfulCarrier for Direct<L> {
    ghost meaning = { means L.LinkService.meaning };

    ghost sound = { Sound L.LinkService.meaning };

    ghost lawful = { λ s h. Steps.lawful s.complete (parts_of L.LinkService.meaning s) h };
}

impl<L: LinkService> Carrier for Direct<L> {
    // One frame to each of at most seven others.
    const G: u64 = 7;

    ghost G = { 7 };

    ghost tells = { hearing_of L.LinkService.meaning };

    ghost says = { SaysDirect L.LinkService.meaning };

    ghost carries = { CarriesDirect L.LinkService.meaning };

    ghost meddles = { MeddlesDirect L.LinkService.meaning };

    fn say(&mut self, author: u8, note: Note) -> Result<(), Fault> {
        // a copy: a part with ghost fields that is lent comes back as another proof of its facts
        let chart = self.complete.chart;
        self.store.say(&chart, author, note)
    }

    fn carry(&mut self, k: usize) -> Result<Option<Heard>, Fault> {
        let waiting = self.waiting();
        let spare = self.spare();
        judge_carry(waiting, spare, k)?;
        let entry = self.store.links.take(k)?;
        let n = self.complete.chart.n;
        if !is_straight(n, &entry) {
            return Ok(None);
        }
        let heard = Heard {
            note: entry.frame.note,
            listener: entry.to,
            author: entry.from,
        };
        if self
            .store
            .table
            .covers(heard.listener, heard.author, &heard.note, 0)
        {
            return Ok(None);
        }
        self.store
            .table
            .hold(heard.listener, heard.author, &heard.note, 0);
        Ok(Some(heard))
    }

    fn meddle(&mut self, c: u8, to: u8, frame: Frame) -> Result<(), Fault> {
        let (chart, f) = (self.complete.chart, self.complete.f);
        self.store.meddle(&mut self.astray, &chart, f, c, to, frame)
    }

    // From here on a line each, as in every carrier: the fields are each type's own.
    fn craft(&self) -> u8 {
        self.complete.chart.n
    }

    fn most_astray(&self) -> u8 {
        self.complete.f
    }

    fn waiting(&self) -> usize {
        self.store.links.waiting()
    }

    fn spare(&self) -> usize {
        self.store.spare()
    }

    fn toil(&self) -> u128 {
        self.waiting() as u128
    }

    fn astray(&self) -> CraftSet {
        self.astray
    }

    fn heard(&self, listener: u8, author: u8, note: &Note) -> bool {
        self.store.table.covers(listener, author, note, 0)
    }

    fn row(&self, craft: u8) -> CraftSet {
        self.complete.chart.row(craft)
    }
}

impl<L: LinkService + Drop> OpenedCarrier for Direct<L> {
    // a link service and a chart
    type From = (L, CompleteChart);

    ghost opens = { λ from r. Opens L.LinkService.meaning from.0 from.1 r };

    fn open_from(from: Self::From) -> Result<Direct<L>, Fault> {
        let (links, chart) = from;
        Direct::open(links, chart)
    }
}
