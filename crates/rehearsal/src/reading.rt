// Records read from bytes.
ghost use Rattle.std.specs.Prelude.{◌≡◌, true, length};
ghost use Rattle.std.specs.Iterator.{at_most};
ghost use Rattle.matter.specs.Words.{word_in};
ghost use Rattle.carriers.specs.Judging.{Judged};
ghost use Rattle.rehearsal.specs.Records.{record_length, rightly_long, right_version, shape_causes};
ghost use Rattle.rehearsal.specs.Records.{RecordRead, NextIs};

use crate::piles::Pile;
use crate::records::{Call, Opening, Record};
use frames::{FRAME_LENGTH, FRAME_VERSION, Frame};
use refusals::{Fault, Layer, Refusal};

/// The version that a record says.
pub const RECORD_VERSION: u8 = 1;

// The kinds of records.
const OPEN: u8 = 1;

const ORDER: u8 = 2;

const CARRY: u8 = 3;

const MEDDLE: u8 = 4;

/// The length in bytes of a record of a version and a kind, with N craft where it is an open. None where the kind is unknown: such a record
/// may have any length from 3. The length is judged ahead of the version, so a record of another version is due to be as long as one of this.
pub fn record_length(version: u8, kind: u8, n: u8) -> Option<usize>
    ensures { result ≡ record_length version kind n }
{
    match (version, kind) {
        (_, OPEN) => Some(6 + usize::from(n)),
        (_, ORDER) => Some(13),
        (_, CARRY) => Some(5),
        (_, MEDDLE) => Some(20),
        _ => None,
    }
}

// Whether bytes are as long as their first byte says and as their kind has it, and a frame in them says its length.
fn is_rightly_long(bytes: &[u8]) -> bool
    ensures { result ≡ rightly_long bytes.now }
{
    let &[length, version, kind, ..] = bytes else {
        return false;
    };
    if usize::from(length) != bytes.len() {
        return false;
    }
    let n = bytes.get(4).copied().unwrap_or(0);
    match record_length(version, kind, n) {
        Some(due) => bytes.len() == due && (kind != MEDDLE || bytes[5] == FRAME_LENGTH),
        None => true,
    }
}

// Whether bytes, and a frame in them, say the right version.
fn is_right_version(bytes: &[u8]) -> bool
    requires { rightly_long bytes.now ≡ true }
    ensures { result ≡ right_version bytes.now }
{
    bytes[1] == RECORD_VERSION && (bytes[2] != MEDDLE || bytes[6] == FRAME_VERSION)
}

// 14 and 15 of bytes and a frame in them, cause by cause.
fn judge_shape(bytes: &[u8]) -> Result<(), Fault>
    ensures { Judged (shape_causes bytes.now) result }
{
    if !is_rightly_long(bytes) {
        return Err(Layer::Frames.refuses(Refusal::Cut));
    }
    if !is_right_version(bytes) {
        return Err(Layer::Frames.refuses(Refusal::Version(RECORD_VERSION)));
    }
    Ok(())
}

// The word in the last bytes of an order.
fn word_of(bytes: &[u8]) -> u64
    requires { length bytes.now ≡ 8 }
    ensures { result ≡ word_in bytes.now }
{
    u64::from_be_bytes([
        bytes[0], bytes[1], bytes[2], bytes[3], bytes[4], bytes[5], bytes[6], bytes[7],
    ])
}

impl<'a> Record<'a> {
    /// The record that these bytes are. A frame in it is judged together with it, cause by cause; 14, 15, 16.
    pub fn from_bytes(bytes: &'a [u8]) -> Result<Record<'a>, Fault>
        ensures { RecordRead bytes.now result }
    {
        judge_shape(bytes)?;
        let call = match bytes[2] {
            OPEN => {
                let pile = Pile::try_from(bytes[3])?;
                let (f, rows) = (bytes[5], &bytes[6..]);
                return Ok(Record::Open(Opening { pile, f, rows }));
            }
            ORDER => Call::Order(bytes[3], bytes[4], word_of(&bytes[5..])),
            CARRY => Call::Carry(256 * usize::from(bytes[3]) + usize::from(bytes[4])),
            MEDDLE => Call::Meddle(bytes[3], bytes[4], Frame::from_bytes(&bytes[5..])?),
            _ => return Err(Layer::Frames.refuses(Refusal::Unknown)),
        };
        Ok(Record::Call(call))
    }
}

/// The records of an input, one after the other, each as long as its first byte says. What is no record ends them, with its refusal; 14, 15, 16.
#[derive(Drop)]
pub struct Records<'a> {
    /// What is to be read.
    pub rest: &'a [u8],
}

impl<'a> Iterator for Records<'a> {
    type Item = Result<Record<'a>, Fault>;

    ghost next_gives = { λ s item t. NextIs s.rest.now item t.rest.now };

    ghost remaining = { λ s. at_most (length s.rest.now) };

    fn next(&mut self) -> Option<Result<Record<'a>, Fault>> {
        let length = usize::from(*self.rest.first()?);
        let (bytes, rest) = self.rest.split_at(length.min(self.rest.len()));
        match Record::from_bytes(bytes) {
            Ok(read) => {
                self.rest = rest;
                Some(Ok(read))
            }
            Err(fault) => {
                self.rest = &[];
                Some(Err(fault))
            }
        }
    }
}
