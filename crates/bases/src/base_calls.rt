// The calls of a base: those of its store.
ghost use Rattle.std.specs.Prelude.{◌≡◌};
ghost use Rattle.carriers.specs.Parts.{spare_of, SaysOn, MeddlesOn};
ghost use Rattle.bases.specs.Parts.{parts, StartsOn};

use crate::base::Base;
use carriers::Store;
use charts::Chart;
use frames::{Frame, Note};
use links::LinkService;
use refusals::Fault;

impl<L: LinkService + Drop> Base<L> {
    // Starts the link service on the chart, with nothing held and nobody astray; 13 of the link service, and nothing else.
    pub fn start(links: L, chart: &Chart) -> Result<Base<L>, Fault>
        ensures { StartsOn L.LinkService.meaning links chart.now result }
    {
        let store = Store::start(links, chart)?;
        Ok(Base { store, astray: 0 })
    }
}

impl<L: LinkService> Base<L> {
    // The smaller of the link service's spare and the fewest free rows on a shelf.
    pub fn spare(&self) -> usize
        ensures { result ≡ spare_of (parts L.LinkService.meaning self.now) }
    {
        self.store.spare()
    }

    // The author says the note: it is put to all its neighbours, and stands on its own shelf; 1, 5, 8.
    // A note that it said before changes nothing.
    pub fn say(&mut self, chart: &Chart, author: u8, note: Note) -> Result<(), Fault>
        ensures { SaysOn chart.now (parts L.LinkService.meaning self.old) author note result (parts L.LinkService.meaning self.new) }
    {
        self.store.say(chart, author, note)
    }

    // Craft c puts any frame to a neighbour, and is astray from then on, where at most f go astray; 1, 9, 10, 8.
    pub fn meddle(&mut self, chart: &Chart, f: u8, c: u8, to: u8, frame: Frame) -> Result<(), Fault>
        ensures { MeddlesOn chart.now f (parts L.LinkService.meaning self.old) c to frame result (parts L.LinkService.meaning self.new) }
    {
        self.store.meddle(&mut self.astray, chart, f, c, to, frame)
    }
}
