// What carriers over a link service have in common.
ghost use Rattle.std.specs.Prelude.{◌≡◌, ℕ, min};
ghost use Rattle.shelves.specs.Shelves.{fewest};
ghost use Rattle.carriers.specs.Parts.{parts, SaysOn, SaidBefore, MeddlesOn, StartsOn};

use crate::judge::{judge_meddle, judge_say};
use crate::store::Store;
use charts::Chart;
use frames::{Frame, Note};
use links::LinkService;
use refusals::Fault;
use sets::{CraftSet, single, with};
use shelves::Table;

impl<L: LinkService + Drop> Store<L> {
    // Starts the link service on the chart, with nothing held; 13 of the link service, and nothing else.
    pub fn start(mut links: L, chart: &Chart) -> Result<Store<L>, Fault>
        ensures { StartsOn L.LinkService.meaning links chart.now result }
    {
        links.start(chart)?;
        Ok(Store {
            links,
            table: Table::new(),
        })
    }
}

impl<L: LinkService> Store<L> {
    // The smaller of the link service's spare and the fewest free rows on a shelf.
    pub fn spare(&self) -> usize
        ensures { result ≡ min (L.LinkService.meaning self.now.links).spare (fewest self.now.table.at) }
    {
        self.links.spare().min(self.table.free())
    }

    // The author says the note: it is put to all its neighbours, and stands on its own shelf; 1, 5, 8.
    // A note that it said before changes nothing. Whoever is astray, nobody is by this.
    pub fn say(&mut self, chart: &Chart, author: u8, note: Note) -> Result<(), Fault>
        ensures step { (astray : ℕ) → SaysOn chart.now (parts L.LinkService.meaning self.old astray) author note result (parts L.LinkService.meaning self.new astray) }
        ensures again { SaidBefore self.old author note result self.new }
    {
        let spare = self.spare();
        judge_say(chart.n, spare, author, &note)?;
        if self.table.covers(author, author, &note, 0) {
            return Ok(());
        }
        let neighbours = chart.row(author);
        let frame = Frame {
            note,
            author,
            set: 0,
        };
        self.links.put(author, neighbours, frame)?;
        self.table.hold(author, author, &note, 0);
        Ok(())
    }

    // Craft c puts any frame to a neighbour, and is astray from then on, where at most f go astray; 1, 9, 10, 8.
    pub fn meddle(
        &mut self,
        astray: &mut CraftSet,
        chart: &Chart,
        f: u8,
        c: u8,
        to: u8,
        frame: Frame,
    ) -> Result<(), Fault>
        ensures { MeddlesOn chart.now f (parts L.LinkService.meaning self.old astray.old) c to frame result (parts L.LinkService.meaning self.new astray.new) }
    {
        let row = chart.row(c);
        let spare = self.spare();
        judge_meddle(chart.n, f, row, *astray, spare, c, to)?;
        self.links.put(c, single(to), frame)?;
        *astray = with(*astray, c);
        Ok(())
    }
}
