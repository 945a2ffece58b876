// Code over any carrier.
ghost use Rattle.std.specs.Prelude.{◌≡◌, ℕ, ◌≤◌, true};
ghost use Rattle.carriers.specs.Settling.{Settled, SettledBy, Tells, ToldBy};

use crate::carrier::Carrier;
use frames::Note;
use refusals::Fault;

// Carries the first frame that waits, as often as the budget allows, until nothing waits or there is no room. Answers how often.
pub fn settle<C: Carrier>(carrier: &mut C, budget: usize) -> usize
    ensures most { result ≤ budget }
    ensures settled { C.sound carrier.old → Settled (C.meaning carrier.old) budget result (C.meaning carrier.new) × C.sound carrier.new }
    ensures exact { SettledBy C.carries carrier.old budget result carrier.new }
{
    for carried in 0..budget {
        if carrier.waiting() == 0 || carrier.carry(0).is_err() {
            return carried;
        }
    }
    budget
}

// The author says the note, and what waits is carried as often as the budget allows. Answers whether nothing waits any more:
// then every craft that is not astray heard the note, if its author is not astray.
pub fn tell<C: Carrier>(
    carrier: &mut C,
    author: u8,
    note: Note,
    budget: usize,
) -> Result<bool, Fault>
    ensures told { C.sound carrier.old → Tells C.G (C.meaning carrier.old) author note budget result (C.meaning carrier.new) × C.sound carrier.new }
    ensures exact { ToldBy C.says C.carries
        (λ w r c. C.sound w → Settled (C.meaning w) budget r (C.meaning c))
        carrier.old author note budget result carrier.new }
{
    carrier.say(author, note)?;
    let _ = settle(carrier, budget);
    Ok(carrier.waiting() == 0)
}
