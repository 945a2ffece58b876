// First votes: a set of authors, with a word for each of them. The two are passed as they lie in the votes, since a struct of them would be padded from 65 bytes to 72.
ghost use Rattle.std.specs.Prelude.{◌≡◌, ◌≤◌, ◌<◌, cond};
ghost use Rattle.sets.specs.Sets.{labels, passing};
ghost use Rattle.agreement.specs.Votes.{is, first};
ghost use Rattle.votes.specs.Firsts.{firsts};

use crate::lengths::LABEL_COUNT;
use sets::{CraftSet, contains, with};

// The author votes for the word, where it has not voted yet.
pub(crate) fn vote(authors: &mut CraftSet, words: &mut [u64; LABEL_COUNT], author: u8, word: u64)
    requires { author < labels }
    ensures { firsts authors.new words.new ≡ first author word (firsts authors.old words.old) }
{
    if !contains(*authors, author) {
        *authors = with(*authors, author);
        words[author as usize] = word;
    }
}

// Those of n craft whose first vote is the word.
pub(crate) fn backing(authors: CraftSet, words: &[u64; LABEL_COUNT], n: u8, word: u64) -> CraftSet
    requires { n ≤ labels }
    ensures { result ≡ passing n (λ a. is (firsts authors words.now a) word) }
{
    let mut set = 0;
    for a in 0..n {
        if contains(authors, a) && words[a as usize] == word {
            set = with(set, a);
        }
    }
    set
}
