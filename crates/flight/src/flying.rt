// Whole lists of commands, with the promise on the call that executes them.
ghost use Rattle.std.specs.Prelude.{◌≡◌, ℕ, List, length, min, take, drop};
ghost use Rattle.flight.specs.Lists.{ExecutedAll, Flies};

use crate::flight::Flight;
use crate::lists::{Answer, Command};
use carriers::{Carrier, OpenedCarrier};
use matter::Matter;
use refusals::Fault;

/// Executes the commands one after the other, as far as there is room for answers, and puts each answer at the place of its command; answers how many.
/// All calls that they made go on with every life of the flight, and after them any two craft that are not astray agree.
pub fn execute_all<C: Carrier, M: Matter + Drop>(
    flight: &mut Flight<C, M>,
    commands: &[Command],
    answers: &mut [Answer],
    buffer: &mut [u8],
) -> usize
    ensures count { result ≡ min (length commands.now) (length answers.old) }
    ensures executed { ExecutedAll C.meaning C.sound C.G M.kinds C.says C.carries C.meddles
        flight.old buffer.old (take result commands.now)
        (take result answers.new) flight.new buffer.new }
    ensures rest { drop result answers.new ≡ drop result answers.old }
{
    let count = commands.len().min(answers.len());
    for i in 0..count {
        answers[i] = flight.execute(&commands[i], buffer);
    }
    count
}

/// Opens a carrier and a flight over it, and executes the commands as `execute_all` does; answers the flight. What is opened is fresh and sound,
/// so nothing is left to assume: the calls that the commands made are all its life, and after them any two craft that are not astray agree.
/// Refused as the opening of the carrier is.
pub fn fly<C: OpenedCarrier, M: Matter + Drop>(
    from: C::From,
    commands: &[Command],
    answers: &mut [Answer],
    buffer: &mut [u8],
) -> Result<Flight<C, M>, Fault>
    ensures { Flies C.meaning C.sound C.G M.kinds C.says C.carries C.meddles C.opens
        from buffer.old commands.now answers.old result answers.new buffer.new }
{
    let mut flight = Flight::open(C::open_from(from)?);
    let _count = execute_all(&mut flight, commands, answers, buffer);
    Ok(flight)
}
