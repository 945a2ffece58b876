// What a craft says on hearing a note.
ghost use Rattle.std.specs.Prelude.{OnOk};
ghost use Rattle.flight.specs.Exact.{SaidIf, SaidAll};
ghost use Rattle.flight.specs.Speaking.{SaysIf, Speaks, said};

use carriers::Carrier;
use frames::Note;
use refusals::Fault;
use votes::Move;

// The author says the note, if there is one.
fn say_if<C: Carrier>(carrier: &mut C, author: u8, note: Option<Note>) -> Result<(), Fault>
    ensures step { C.sound carrier.old
        → SaysIf C.G (C.meaning carrier.old) author note result (C.meaning carrier.new)
        × C.sound carrier.new }
    ensures exact { SaidIf C.says carrier.old author note result carrier.new }
{
    match note {
        Some(note) => carrier.say(author, note),
        None => Ok(()),
    }
}

// The listener says the Echo and the Ready of its turn, in this order.
pub(crate) fn speak<C: Carrier>(
    carrier: &mut C,
    turn: Move,
    listener: u8,
    note: &Note,
) -> Result<(), Fault>
    ensures step { C.sound carrier.old
        → Speaks C.G (C.meaning carrier.old) turn listener note.now result (C.meaning carrier.new)
        × C.sound carrier.new }
    ensures exact { OnOk result
        (SaidAll C.says carrier.old listener (said turn note.now) carrier.new) }
{
    let echo = turn.echo(note);
    let ready = turn.ready(note);
    say_if(carrier, listener, echo)?;
    say_if(carrier, listener, ready)
}
