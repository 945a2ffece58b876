// A frame's bytes: the writer, and the laws that tie it to the reader.
ghost use Rattle.std.specs.Prelude.{◌≡◌, Ok};
ghost use Rattle.frames.specs.Bytes.{Puts};
ghost use Rattle.frames.specs.Frames.{frame_bytes, FrameRead, Again};

use crate::buffers::put_at;
use crate::notes::Frame;
use crate::received::{FRAME_LENGTH, FRAME_VERSION, read_frame};
use refusals::Fault;

impl Frame {
    // The frame's fifteen bytes.
    pub fn to_bytes(&self) -> [u8; 15]
        ensures { result ≡ frame_bytes self.now }
    {
        let note = self.note;
        let (author, origin) = (self.author, note.origin);
        let step = u8::from(note.step);
        let head = [
            FRAME_LENGTH,
            FRAME_VERSION,
            step,
            author,
            origin,
            note.number,
            self.set,
        ];
        let mut bytes = [0; 15];
        bytes[0..7].copy_from_slice(&head);
        bytes[7..15].copy_from_slice(&note.content.to_be_bytes());
        bytes
    }

    // Writes the fifteen bytes into the part of the buffer that starts at a place. A buffer too short is refused by 13, and left as it was.
    pub fn write_at(&self, buf: &mut [u8], at: usize) -> Result<(), Fault>
        ensures { Puts buf.old at (frame_bytes self.now) result buf.new }
    {
        put_at(buf, at, &self.to_bytes())
    }

    // The frame that has these bytes, refused as the reader refuses them.
    pub fn from_bytes(bytes: &[u8]) -> Result<Frame, Fault>
        ensures { FrameRead bytes.now result }
    {
        read_frame(bytes)?.frame()
    }

    // A frame comes back from its bytes unchanged.
    pub fn written_and_read(self) -> Result<Frame, Fault>
        ensures { result ≡ Ok self }
    {
        Frame::from_bytes(&self.to_bytes())
    }
}

// Bytes that the reader takes come back from the writer unchanged.
pub fn read_and_written(bytes: &[u8]) -> Result<[u8; 15], Fault>
    ensures { Again bytes.now result }
{
    Ok(Frame::from_bytes(bytes)?.to_bytes())
}
