// Matter of whichever kind a word says.
ghost use Rattle.matter.specs.AnyKind.{all_kinds, any_kind, any_fields};
ghost use Rattle.std.specs.Prelude.{◌≡◌, refl, Some};
ghost use Rattle.std.proofs.Common.{ap, sym};
ghost use Rattle.matter.specs.declared.any_matter.AnyMatter.TheVariants.{Observation, KeepOut};
ghost use Rattle.matter.specs.Kinds.{observation, observed, keep_out, kept_out};
ghost use Rattle.matter.specs.KindLaws.{observation_whole, observation_fit, keep_out_whole, keep_out_fit, observation_apart, keep_out_apart, two_kinds};
ghost use Rattle.matter.specs.Texts.{any_text};
ghost use Rattle.matter.specs.LayoutsLemmas.{own_word_reads, read_word_again, word_eight};

use crate::kinds::{KeepOut, Observation};
use crate::matter_kinds::MatterKind;
use crate::matters::Matter;
use refusals::Fault;
use std::fmt;

// Matter of either kind.
#[derive(Clone, Copy, PartialEq, Eq, Debug)]
pub enum AnyMatter {
    Observation(Observation),
    KeepOut(KeepOut),
}

impl From<Observation> for AnyMatter {
    ghost from_gives = { λ m any. any ≡ Observation m };

    fn from(matter: Observation) -> AnyMatter {
        AnyMatter::Observation(matter)
    }
}

impl From<KeepOut> for AnyMatter {
    ghost from_gives = { λ m any. any ≡ KeepOut m };

    fn from(matter: KeepOut) -> AnyMatter {
        AnyMatter::KeepOut(matter)
    }
}

// The matter in words, as its kind has them.
impl fmt::Display for AnyMatter {
    ghost output = { λ m. Some (any_text m) };

    fn fmt<W: fmt::Write>(&self, f: &mut fmt::Formatter<W>) -> fmt::Result {
        match self {
            AnyMatter::Observation(m) => write!(f, "{m}"),
            AnyMatter::KeepOut(m) => write!(f, "{m}"),
        }
    }
}

impl Matter for AnyMatter {
    ghost kinds = { all_kinds };

    ghost kind = { any_kind };

    ghost fields = { any_fields };

    ghost reads = { elim [
      | Observation m ↦ own_word_reads all_kinds observation (observed m) refl observation_whole (observation_fit m)
      | KeepOut m ↦ own_word_reads all_kinds keep_out (kept_out m) refl keep_out_whole (keep_out_fit m)
    ] };

    ghost apart = { elim [
      | Observation m ↦
          elim [
            | Observation n ↦ λ k e. ap Observation (observation_apart m n e)
            | KeepOut n ↦ λ k e. absurd (two_kinds k)
          ]
      | KeepOut m ↦
          elim [
            | Observation n ↦ λ k e. absurd (two_kinds (sym k))
            | KeepOut n ↦ λ k e. ap KeepOut (keep_out_apart m n e)
          ]
    ] };

    ghost again = { λ w.
        elim [
          | Observation m ↦ λ h. read_word_again all_kinds w observation (observed m) observation_whole h
          | KeepOut m ↦ λ h. read_word_again all_kinds w keep_out (kept_out m) keep_out_whole h
        ] };

    ghost eight = { elim [
      | Observation m ↦ word_eight observation (observed m) observation_whole (observation_fit m)
      | KeepOut m ↦ word_eight keep_out (kept_out m) keep_out_whole (keep_out_fit m)
    ] };

    fn word(&self) -> u64 {
        match self {
            AnyMatter::Observation(m) => m.word(),
            AnyMatter::KeepOut(m) => m.word(),
        }
    }

    fn of_word(word: u64) -> Result<AnyMatter, Fault> {
        let [kind, ..] = word.to_be_bytes();
        match MatterKind::try_from(kind)? {
            MatterKind::Observation => Ok(Observation::of_word(word)?.into()),
            MatterKind::KeepOut => Ok(KeepOut::of_word(word)?.into()),
        }
    }
}
