// Worked examples, proved of the definitions and run by the code.
ghost use Rattle.std.specs.Prelude.{◌≡◌, Ok};
ghost use Rattle.matter.specs.Examples.{WorkedWords};

use crate::kinds::Observation;
use crate::matters::Matter;
use refusals::Fault;

// The word of the observation of target 300 from second 3,600 on, for 12 seconds, in mode 1.
pub fn worked_words() -> Result<u64, Fault>
    ensures word { result ≡ Ok 0x01012C000E100C01 }
    ensures rules { WorkedWords }
{
    Ok(Observation::new(300, 3600, 12, 1)?.word())
}
