// The open sets of a relay, which its toil counts: of each key, once, the label sets that are open for it at each craft.
// A key is an author and a note. The keys of all that waits and of all rows stand in a list, and each counts at its last place.
ghost use Rattle.std.specs.Prelude.{◌≡◌, ◌*◌, ◌<◌, ◌≤◌, length};
ghost use Rattle.std.specs.List.{slice_get};
ghost use Rattle.sets.specs.Sets.{labels};
ghost use Rattle.shelves.specs.Shelves.{rows_at};
ghost use Rattle.relaying.specs.Toil.{equal, shelves_keys, label_sets};
ghost use Rattle.relay.specs.Toils.{open_at, open_below, all_open};
ghost use Rattle.relay.specs.Toils.{keys_in, most_keys, standing_at, standing_from, share_in};

use crate::kinds::Relay;
use carriers::Carrier;
use frames::Note;
use links::LinkService;
use sets::LABELS;
use shelves::{Shelf, Table};

type Key = (u8, Note);

fn is_same(j: &Key, k: &Key) -> bool
    ensures { result ≡ equal j.now k.now }
{
    j.0 == k.0 && j.1 == k.1
}

// How many label sets are open at the craft for the key: it holds no set within them.
fn open_sets(table: &Table, craft: u8, key: &Key) -> u16
    ensures answer { result ≡ open_at (rows_at table.now.at craft) key.now }
    ensures few { result ≤ label_sets }
{
    let mut open = 0;
    for set in 0..256u16 {
        if !table.covers(craft, key.0, &key.1, set as u8) {
            open += 1;
        }
    }
    open
}

// The same at all craft below n.
fn open_at_all(table: &Table, n: u8, key: &Key) -> u16
    requires { n ≤ labels }
    ensures answer { result ≡ open_below (rows_at table.now.at) n key.now }
    ensures few { result ≤ label_sets * labels }
{
    let mut open = 0;
    for craft in 0..n {
        open += open_sets(table, craft, key);
    }
    open
}

// The key of the row at a place, where the shelves of the craft below n stand one behind the other, that of the last craft first.
fn shelf_key(table: &Table, n: u8, i: u128) -> Option<Key>
    requires { n ≤ labels }
    ensures { result ≡ slice_get (shelves_keys (rows_at table.now.at) n) i }
{
    if n == 0 {
        return None;
    }
    let rows = table.at[usize::from(n - 1)].rows.as_slice();
    if i < rows.len() as u128 {
        let row = rows[i as usize];
        return Some((row.author, row.note));
    }
    shelf_key(table, n - 1, i - rows.len() as u128)
}

impl<L: LinkService> Relay<L> {
    // A number of places that all keys fit into. Of 128 bits, since any number that a usize holds may wait, and the rows are beside them.
    fn places(&self) -> u128
        ensures all { length (keys_in L.LinkService.meaning self.now) ≤ result }
        ensures few { result ≤ most_keys }
    {
        self.waiting() as u128 + u128::from(LABELS) * Shelf::LENGTH as u128
    }

    // The key at a place: those of what waits come first, then those of the shelves.
    fn key_at(&self, i: u128) -> Option<Key>
        ensures { result ≡ slice_get (keys_in L.LinkService.meaning self.now) i }
    {
        let waiting = self.waiting() as u128;
        if i < waiting {
            let frame = self.entry(i as usize)?.frame;
            return Some((frame.author, frame.note));
        }
        shelf_key(&self.base.store.table, self.passed.chart.n, i - waiting)
    }

    // Whether the key stands at a place.
    fn stands_at(&self, i: u128, key: &Key) -> bool
        ensures { result ≡ standing_at L.LinkService.meaning self.now i key.now }
    {
        match self.key_at(i) {
            Some(other) => is_same(key, &other),
            None => false,
        }
    }

    // Whether the key stands at a place from this one on.
    fn stands_from(&self, start: u128, key: &Key) -> bool
        ensures { result ≡ standing_from L.LinkService.meaning self.now start key.now }
    {
        for i in start..self.places() {
            if self.stands_at(i, key) {
                return true;
            }
        }
        false
    }

    // What the place adds: the open sets of its key, at that key's last place.
    fn open_for(&self, i: u128) -> u16
        requires { i < most_keys }
        ensures answer { result ≡ share_in L.LinkService.meaning self.now i }
        ensures few { result ≤ label_sets * labels }
    {
        match self.key_at(i) {
            Some(key) if !self.stands_from(i + 1, &key) => {
                open_at_all(&self.base.store.table, self.passed.chart.n, &key)
            }
            _ => 0,
        }
    }

    // The open sets of all keys, at all craft.
    pub(crate) fn all_open(&self) -> u128
        ensures answer { result ≡ all_open L.LinkService.meaning self.now }
        ensures few { result ≤ label_sets * labels * most_keys }
    {
        let mut open = 0;
        for i in 0..self.places() {
            open += u128::from(self.open_for(i));
        }
        open
    }
}
