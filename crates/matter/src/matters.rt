// Matter: what an order carries, as a value and as a word of eight bytes.
ghost use Rattle.std.specs.Prelude.{◌≡◌, ℕ, ◌^◌, ◌<◌, List, Ok};
ghost use Rattle.matter.specs.Layouts.{Kind, word_of, Reads, ReadAs, WrittenAgain};

use refusals::Fault;

// Matter: a kind, fields, and a word, which is eight bytes read as one big-endian number.
pub trait Matter: Sized {
    // the kinds of which a word is read
    ghost kinds: { List Kind };
    // a matter's kind: its number and the layout of its fields
    ghost kind: { Self → Kind };
    // the values of a matter's fields, in the order of the word
    ghost fields: { Self → List ℕ };

    // The matter's word.
    fn word(&self) -> u64
        ensures { result ≡ word_of (kind self.now) (fields self.now) };

    // The matter of a word, or 11 with the first byte of the first field out of range, which is 0 where the kind is.
    fn of_word(word: u64) -> Result<Self, Fault>
        ensures { ReadAs kinds kind fields word result };

    // a matter comes back from its word ..
    ghost reads: { (m : Self) → Reads kinds (word_of (kind m) (fields m)) (kind m) (fields m) };

    // .. and no other does
    ghost apart: { (m n : Self) → kind m ≡ kind n → fields m ≡ fields n → m ≡ n };

    // a word that is read comes back from what was read
    ghost again: { (w : ℕ) (m : Self) → Reads kinds w (kind m) (fields m) → word_of (kind m) (fields m) ≡ w };

    // a word has eight bytes
    ghost eight: { (m : Self) → word_of (kind m) (fields m) < 2 ^ 64 };
}

// A matter comes back from its word, whatever its kind.
pub fn read_back<M: Matter>(matter: &M) -> Result<M, Fault>
    ensures { result ≡ Ok matter.now }
{
    M::of_word(matter.word())
}

// A word that is read comes back from what was read; any other is refused as its reader refuses it.
pub fn written_again<M: Matter + Drop>(word: u64) -> Result<u64, Fault>
    ensures { WrittenAgain M.kinds word result }
{
    Ok(M::of_word(word)?.word())
}
