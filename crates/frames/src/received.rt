// The frame reader: fifteen bytes taken apart by position.
ghost use Rattle.frames.specs.Frames.{ReadsAs, Taken, TakenApart};

use crate::notes::{Frame, Note, Step};
use refusals::{Fault, Layer, Refusal};
use sets::CraftSet;

// A frame's length in bytes, which is its first byte too.
pub const FRAME_LENGTH: u8 = 15;
// The version that a frame says.
pub const FRAME_VERSION: u8 = 1;
// The bytes of a content word.
const CONTENT_LENGTH: usize = 8;

// What stands in a frame between its step and its content.
#[derive(Clone, Copy, PartialEq, Eq, Debug)]
pub struct Head {
    pub author: u8,
    pub origin: u8,
    pub number: u8,
    pub set: CraftSet,
}

// A frame as it was received: the step is the case, and the content is that part of the received bytes.
// A rule of the project, and so no struct with a step: a case for each step, and the content lent from what was received.
#[derive(Clone, Copy, PartialEq, Eq, Debug)]
pub enum Received<'a> {
    Send(Head, &'a [u8]),
    Echo(Head, &'a [u8]),
    Ready(Head, &'a [u8]),
}

// Reads one frame from all of the bytes. It judges length (14), version (15) and step (16), and nothing else.
pub fn read_frame(bytes: &[u8]) -> Result<Received<'_>, Fault>
    ensures { ReadsAs bytes.now result }
{
    let &[
        length,
        version,
        step,
        author,
        origin,
        number,
        set,
        ref content @ ..,
    ] = bytes
    else {
        return Err(Layer::Frames.refuses(Refusal::Cut));
    };
    if length != FRAME_LENGTH || content.len() != CONTENT_LENGTH {
        return Err(Layer::Frames.refuses(Refusal::Cut));
    }
    if version != FRAME_VERSION {
        return Err(Layer::Frames.refuses(Refusal::Version(FRAME_VERSION)));
    }
    let step = Step::try_from(step)?;
    let head = Head {
        author,
        origin,
        number,
        set,
    };
    Ok(match step {
        Step::Send => Received::Send(head, content),
        Step::Echo => Received::Echo(head, content),
        Step::Ready => Received::Ready(head, content),
    })
}

impl Received<'_> {
    // What was received, as a frame that owns its content. A content that has not eight bytes, which no reader gives, is refused by 14.
    pub fn frame(self) -> Result<Frame, Fault>
        ensures { Taken self.entry result }
    {
        match self {
            Received::Send(head, content) => owned(Step::Send, head, content),
            Received::Echo(head, content) => owned(Step::Echo, head, content),
            Received::Ready(head, content) => owned(Step::Ready, head, content),
        }
    }
}

// The frame of a step, a head and the eight bytes of a content.
fn owned(step: Step, head: Head, content: &[u8]) -> Result<Frame, Fault>
    ensures { TakenApart step head content.now result }
{
    let Ok(bytes) = <[u8; CONTENT_LENGTH]>::try_from(content) else {
        return Err(Layer::Frames.refuses(Refusal::Cut));
    };
    let note = Note {
        step,
        origin: head.origin,
        number: head.number,
        content: u64::from_be_bytes(bytes),
    };
    Ok(Frame {
        author: head.author,
        note,
        set: head.set,
    })
}
