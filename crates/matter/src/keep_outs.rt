// Keep-outs: kind 2.
ghost use Rattle.std.specs.Prelude.{[], ◌∷◌, refl, Some};
ghost use Rattle.matter.specs.Layouts.{Made};
ghost use Rattle.matter.specs.Kinds.{keep_out, kept_out};
ghost use Rattle.matter.specs.KindLaws.{keep_out_whole, keep_out_fit, keep_out_apart};
ghost use Rattle.matter.specs.Texts.{kind_text};
ghost use Rattle.matter.specs.LayoutsLemmas.{own_word_reads, read_word_again, word_eight};

use crate::kinds::{KeepOut, LAST_SECOND};
use crate::matter_kinds::MatterKind;
use crate::matters::Matter;
use crate::ranges::require;
use refusals::Fault;
use std::fmt;

// the longest keep-out: a day, in minutes
const MOST_MINUTES: u16 = 1440;

impl KeepOut {
    // The keep-out with these fields, or 11 with the first byte of the first field out of range.
    pub fn new(zone: u16, first: u32, minutes: u16) -> Result<KeepOut, Fault>
        ensures { Made keep_out kept_out (zone ∷ first ∷ minutes ∷ []) result }
    {
        require(zone >= 1, 1)?;
        require(first <= LAST_SECOND, 3)?;
        require((1..=MOST_MINUTES).contains(&minutes), 6)?;
        Ok(KeepOut {
            zone,
            first,
            minutes,
        })
    }
}

impl Matter for KeepOut {
    ghost kinds = { keep_out ∷ [] };

    ghost kind = { λ _. keep_out };

    ghost fields = { kept_out };

    ghost reads = { λ m. own_word_reads (keep_out ∷ []) keep_out (kept_out m) refl keep_out_whole (keep_out_fit m) };

    ghost apart = { λ m n k e. keep_out_apart m n e };

    ghost again = { λ w m h. read_word_again (keep_out ∷ []) w keep_out (kept_out m) keep_out_whole h };

    ghost eight = { λ m. word_eight keep_out (kept_out m) keep_out_whole (keep_out_fit m) };

    fn word(&self) -> u64 {
        let [z1, z0] = self.zone.to_be_bytes();
        let [_, f2, f1, f0] = self.first.to_be_bytes();
        let [m1, m0] = self.minutes.to_be_bytes();
        let kind = u8::from(MatterKind::KeepOut);
        u64::from_be_bytes([kind, z1, z0, f2, f1, f0, m1, m0])
    }

    fn of_word(word: u64) -> Result<KeepOut, Fault> {
        let [kind, z1, z0, f2, f1, f0, m1, m0] = word.to_be_bytes();
        require(kind == u8::from(MatterKind::KeepOut), 0)?;
        let zone = u16::from_be_bytes([z1, z0]);
        let first = u32::from_be_bytes([0, f2, f1, f0]);
        let minutes = u16::from_be_bytes([m1, m0]);
        KeepOut::new(zone, first, minutes)
    }
}

// The keep-out in words: `keepout`, zone, first second and minutes.
impl fmt::Display for KeepOut {
    ghost output = { λ m. Some (kind_text keep_out (kept_out m)) };

    fn fmt<W: fmt::Write>(&self, f: &mut fmt::Formatter<W>) -> fmt::Result {
        write!(f, "keepout {} {} {}", self.zone, self.first, self.minutes)
    }
}
