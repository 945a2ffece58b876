// What the line of a record says.
ghost use Rattle.std.specs.Prelude.{◌≡◌, Some, IfOk, OnOk, ◌++◌};
ghost use Rattle.rehearsal.specs.Texts.{line, outcome_text};

use carriers::Heard;
use refusals::Fault;
use std::alloc::{AllocError, Global};
use std::fmt;

/// What came of a record. Only a carry is quiet or heard.
#[derive(Clone, Copy, PartialEq, Eq, Debug)]
pub enum Outcome {
    Done,
    Quiet,
    Heard(Heard),
    Refused(Fault),
}

/// A word for it, and its numbers.
impl fmt::Display for Outcome {
    ghost output = { λ outcome. Some (outcome_text outcome) };

    fn fmt<W: fmt::Write>(&self, f: &mut fmt::Formatter<W>) -> fmt::Result {
        match *self {
            Outcome::Done => f.write_str("done"),
            Outcome::Quiet => f.write_str("quiet"),
            Outcome::Heard(heard) => {
                let step = u8::from(heard.note.step);
                write!(f, "heard {} {} {step}", heard.listener, heard.author)
            }
            Outcome::Refused(fault) => write!(f, "{fault}"),
        }
    }
}

// A line: a record's count, what came of it, and a line feed.
pub(crate) fn line_of(alloc: Global, count: usize, outcome: &Outcome) -> Result<Vec<u8>, AllocError>
    ensures { IfOk result (λ text. text.items ≡ line count (outcome_text outcome.now)) }
{
    let text = format!(in alloc; "{count} {outcome}\n")?;
    Ok(text.into_bytes())
}

// A line more.
pub(crate) fn add_line(
    alloc: Global,
    count: usize,
    outcome: &Outcome,
    out: &mut Vec<u8>,
) -> Result<(), AllocError>
    ensures { OnOk result (out.new.items ≡ out.old.items ++ line count (outcome_text outcome.now)) }
{
    out.extend_from_slice(&line_of(alloc, count, outcome)?)?;
    Ok(())
}
