// Writing into a part of the caller's buffer.
ghost use Rattle.frames.specs.Bytes.{Puts};

use refusals::{Fault, Layer, Refusal};

// Writes bytes into the part of the buffer that starts at a place, and touches no other byte. A buffer too short is refused by 13 with the length that it needs, at most the greatest number, and left as it was.
pub fn put_at(buf: &mut [u8], at: usize, bytes: &[u8]) -> Result<(), Fault>
    ensures { Puts buf.old at bytes.now result buf.new }
{
    let needed = at.saturating_add(bytes.len());
    if buf.len() < needed {
        return Err(Layer::Frames.refuses(Refusal::Short(needed)));
    }
    buf[at..needed].copy_from_slice(bytes);
    Ok(())
}
