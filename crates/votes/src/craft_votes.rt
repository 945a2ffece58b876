// One craft's votes on the orders of all origins.
ghost use Rattle.std.specs.Prelude.{◌≡◌, ℕ, ◌≤◌, ◌<◌, length, slice_index_or, slice_set, Decides};
ghost use Rattle.sets.specs.Sets.{labels};
ghost use Rattle.frames.specs.Notes.{last_number};
ghost use Rattle.votes.specs.Crafts.{record_of, NothingHeard, RecordPut, CraftVotesSet, HeardByCraft, HeardOfOrigin};
ghost use Rattle.votes.specs.Moves.{Unheard};
ghost use Rattle.votes.specs.Ranges.{InTable};
ghost use Rattle.votes.specs.Records.{no_votes};

use crate::lengths::{LABEL_COUNT, ORDER_COUNT};
use crate::record::Votes;
use crate::stages::Move;
use frames::{LAST_NUMBER, Note};
use sets::LABELS;

// The votes on the orders of one origin.
#[derive(Clone, Copy)]
struct OriginVotes {
    // By number.
    at: [Votes; ORDER_COUNT],
}

/// One craft's votes on the orders of all origins: all that a satellite keeps of what it heard, its shelf aside.
#[derive(Drop)]
pub struct CraftVotes {
    // By origin.
    at: [OriginVotes; LABEL_COUNT],
}

// Whether the votes have a place for what is heard.
fn is_in_table(n: u8, own: u8, author: u8, note: &Note) -> bool
    ensures { Decides result (InTable n own author note.now) }
{
    n <= LABELS
        && own < LABELS
        && author < LABELS
        && note.origin < LABELS
        && note.number <= LAST_NUMBER
}

impl OriginVotes {
    // The votes under a number; none where there is no such number.
    fn votes(&self, number: u8) -> Votes
        ensures { result ≡ slice_index_or self.now.at number no_votes }
    {
        if number > LAST_NUMBER {
            return Votes::new();
        }
        self.at[number as usize]
    }

    // The votes under a number are these from now on.
    fn put(&mut self, number: u8, votes: Votes)
        requires { number ≤ last_number }
        ensures within { number < length self.old.at }
        ensures put { self.new ≡ record { at = slice_set self.old.at number votes } }
    {
        self.at[number as usize] = votes;
    }

    // Craft `own` hears the author's note of one of these orders.
    fn hear(&mut self, n: u8, f: u8, own: u8, author: u8, note: &Note) -> Move
        requires few { n ≤ labels }
        requires label { own < labels }
        requires author_label { author < labels }
        requires number { note.now.number ≤ last_number }
        ensures within { note.now.number < length self.old.at }
        ensures heard { HeardOfOrigin n f own author note.now self.old result self.new }
    {
        self.at[note.number as usize].hear(n, f, own, author, note.content, note.step)
    }
}

impl CraftVotes {
    /// No votes, and nothing delivered.
    pub fn new() -> CraftVotes
        ensures { NothingHeard result }
    {
        let orders = OriginVotes {
            at: [Votes::new(); ORDER_COUNT],
        };
        CraftVotes {
            at: [orders; LABEL_COUNT],
        }
    }

    /// The votes on the order of an origin and a number; no votes where there is no such order.
    pub fn votes(&self, origin: u8, number: u8) -> Votes
        ensures { result ≡ record_of self.now origin number }
    {
        if origin >= LABELS {
            return Votes::new();
        }
        self.at[origin as usize].votes(number)
    }

    // The votes on the order of an origin and a number are these from now on.
    pub(crate) fn put(&mut self, origin: u8, number: u8, votes: Votes)
        requires origin { origin < labels }
        requires number { number ≤ last_number }
        ensures { RecordPut self.old origin number votes self.new }
    {
        self.at[origin as usize].put(number, votes);
    }

    // The craft hears a note that its votes have a place for.
    fn hear_within(&mut self, n: u8, f: u8, own: u8, author: u8, note: &Note) -> Move
        requires { InTable n own author note.now }
        ensures { CraftVotesSet n f own author note.now self.old result self.new }
    {
        self.at[note.origin as usize].hear(n, f, own, author, note)
    }

    /// Craft `own`, which keeps these votes, one of n of whom at most f are astray, hears the author's note, and does what docs/PROTOCOL.md has for it.
    /// Its own Echo and Ready, if the answer says them, are among its votes already. Whether the note is sound, and n above 3f, is not looked at;
    /// nothing is done where n, a label or the number is past what the votes have a place for.
    pub fn hear(&mut self, n: u8, f: u8, own: u8, author: u8, note: &Note) -> Move
        ensures heard { HeardByCraft n f own author note.now self.old result self.new }
        ensures ignored { Unheard n own author note.now self.old result self.new }
    {
        if !is_in_table(n, own, author, note) {
            return Move::default();
        }
        self.hear_within(n, f, own, author, note)
    }
}
