// A capture of frames as text: a line for each frame, with its count from 1.
#![tactic(auto)]

ghost use Rattle.std.specs.Prelude.{◌≡◌, Some, IfOk, string_bytes, length};
ghost use Rattle.std.specs.Iterator.{at_most};
ghost use Rattle.listing.specs.Text.{matter_text, text_of, entry_text, captured_text, listing, NextIs, InOrder};

use frames::{AnyMatter, Fault, Frame, Layer, Matter, Note, Refusal};
use std::alloc::{AllocError, Global};
use std::fmt;

// The frames of a capture, one after the other, each as long as its length byte says.
// A length byte of 0, or of more bytes than there are, is refused by 14, and ends the capture.
#[derive(Drop)]
struct Capture<'a> {
    rest: &'a [u8],
}

impl<'a> Iterator for Capture<'a> {
    type Item = Result<&'a [u8], Fault>;

    ghost next_gives = { λ s item t. NextIs s.rest.now item t.rest.now };

    ghost remaining = { λ s. at_most (length s.rest.now) };

    fn next(&mut self) -> Option<Result<&'a [u8], Fault>> {
        let n = usize::from(*self.rest.first()?);
        if n == 0 || self.rest.len() < n {
            self.rest = &[];
            return Some(Err(Layer::Frames.refuses(Refusal::Cut)));
        }
        let (frame, rest) = self.rest.split_at(n);
        self.rest = rest;
        Some(Ok(frame))
    }
}

// The matter of a content in words, or `unknown` where the content is of no kind.
#[derive(Drop)]
struct Content(u64);

impl fmt::Display for Content {
    ghost output = { λ content. Some (matter_text content.0) };

    #[tactic(auto, using(crate::proofs::FrameTexts::matter_read, crate::proofs::FrameTexts::matter_unread))]
    fn fmt<W: fmt::Write>(&self, f: &mut fmt::Formatter<W>) -> fmt::Result {
        match AnyMatter::of_word(self.0) {
            Ok(matter) => write!(f, "{matter}"),
            Err(_) => write!(f, "unknown"),
        }
    }
}

// A frame in columns: step, author, origin, number, set, content and matter.
#[derive(Drop)]
struct Columns(Frame);

impl fmt::Display for Columns {
    ghost output = { λ columns. Some (text_of columns.0) };

    fn fmt<W: fmt::Write>(&self, f: &mut fmt::Formatter<W>) -> fmt::Result {
        let Frame {
            author,
            note: Note {
                step,
                origin,
                number,
                content,
            },
            set,
        } = self.0;
        let matter = Content(content);
        write!(
            f,
            "{step} {author} {origin} {number} {set:02x} {content:016x} {matter}"
        )
    }
}

// What a line says of captured bytes: the frame that they are, or why they are none.
#[derive(Drop)]
struct Entry(Result<Frame, Fault>);

impl fmt::Display for Entry {
    ghost output = { λ entry. Some (entry_text entry.0) };

    fn fmt<W: fmt::Write>(&self, f: &mut fmt::Formatter<W>) -> fmt::Result {
        match self.0 {
            Ok(frame) => write!(f, "{}", Columns(frame)),
            Err(fault) => write!(f, "{fault}"),
        }
    }
}

// The entry of captured bytes.
#[tactic(auto, using(crate::proofs::FrameTexts::captured_as_read))]
fn read_entry(captured: Result<&[u8], Fault>) -> Entry
    ensures { entry_text result.0 ≡ captured_text captured.entry }
{
    Entry(captured.and_then(Frame::from_bytes))
}

// The lines of a whole capture. It ends at its end, or at a frame that is cut off, which is refused by 14.
#[tactic(auto, using(crate::proofs::Captures::in_order))]
pub fn list_frames(heap: Global, bytes: &[u8]) -> Result<String, AllocError>
    ensures text { IfOk result (λ s. string_bytes s ≡ listing bytes.now) }
    ensures order { InOrder }
{
    let mut out = String::new(heap);
    let capture = Capture { rest: bytes };
    for (index, captured) in capture.enumerate() {
        let count = index + 1;
        writeln!(out, "{count} {}", read_entry(captured))?;
    }
    Ok(out)
}
