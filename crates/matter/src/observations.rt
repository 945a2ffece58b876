// Observations: kind 1.
ghost use Rattle.std.specs.Prelude.{[], ◌∷◌, refl, Some};
ghost use Rattle.matter.specs.Layouts.{Made};
ghost use Rattle.matter.specs.Kinds.{observation, observed};
ghost use Rattle.matter.specs.KindLaws.{observation_whole, observation_fit, observation_apart};
ghost use Rattle.matter.specs.Texts.{kind_text};
ghost use Rattle.matter.specs.LayoutsLemmas.{own_word_reads, read_word_again, word_eight};

use crate::kinds::{LAST_SECOND, Observation};
use crate::matter_kinds::MatterKind;
use crate::matters::Matter;
use crate::ranges::require;
use refusals::Fault;
use std::fmt;

// the last camera mode
const LAST_MODE: u8 = 3;

impl Observation {
    // The observation with these fields, or 11 with the first byte of the first field out of range.
    pub fn new(target: u16, start: u32, length: u8, mode: u8) -> Result<Observation, Fault>
        ensures { Made observation observed (target ∷ start ∷ length ∷ mode ∷ []) result }
    {
        require(target >= 1, 1)?;
        require(start <= LAST_SECOND, 3)?;
        require(length >= 1, 6)?;
        require(mode <= LAST_MODE, 7)?;
        Ok(Observation {
            target,
            start,
            length,
            mode,
        })
    }
}

impl Matter for Observation {
    ghost kinds = { observation ∷ [] };

    ghost kind = { λ _. observation };

    ghost fields = { observed };

    ghost reads = { λ m. own_word_reads (observation ∷ []) observation (observed m) refl observation_whole (observation_fit m) };

    ghost apart = { λ m n k e. observation_apart m n e };

    ghost again = { λ w m h. read_word_again (observation ∷ []) w observation (observed m) observation_whole h };

    ghost eight = { λ m. word_eight observation (observed m) observation_whole (observation_fit m) };

    fn word(&self) -> u64 {
        let [t1, t0] = self.target.to_be_bytes();
        let [_, s2, s1, s0] = self.start.to_be_bytes();
        u64::from_be_bytes([
            u8::from(MatterKind::Observation),
            t1,
            t0,
            s2,
            s1,
            s0,
            self.length,
            self.mode,
        ])
    }

    fn of_word(word: u64) -> Result<Observation, Fault> {
        let [kind, t1, t0, s2, s1, s0, length, mode] = word.to_be_bytes();
        require(kind == u8::from(MatterKind::Observation), 0)?;
        let target = u16::from_be_bytes([t1, t0]);
        let start = u32::from_be_bytes([0, s2, s1, s0]);
        Observation::new(target, start, length, mode)
    }
}

// The observation in words: `observation`, target, start second, length and mode.
impl fmt::Display for Observation {
    ghost output = { λ m. Some (kind_text observation (observed m)) };

    fn fmt<W: fmt::Write>(&self, f: &mut fmt::Formatter<W>) -> fmt::Result {
        write!(
            f,
            "observation {} {} {} {}",
            self.target, self.start, self.length, self.mode
        )
    }
}
