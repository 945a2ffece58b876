// Refusals: why a call is refused, and which layer refused it. One list for all layers.
#![tactic(auto)]

ghost use Rattle.std.specs.Prelude.{◌≡◌, Some};
ghost use Rattle.refusals.specs.Refusals.{number_of, layer_number, fault_text};
ghost use Rattle.refusals.specs.Apart.{ToldApart, NumbersTo};

use sets::CraftSet;
use std::error::Error;
use std::fmt;

// The four layers, from the bottom up: the one whose test failed stands in the fault.
#[derive(Clone, Copy, PartialEq, Eq, Debug)]
pub enum Layer {
    Frames,
    Links,
    Carriers,
    Flight,
}

// The causes of a refusal, in the order of their numbers from 1, each with what it returns.
#[derive(Clone, Copy, PartialEq, Eq, Debug)]
pub enum Refusal {
    // 1: a craft's label is not below N; the label
    Label(u8),
    // 2: N is outside 2 to 8, or not above 3f; N
    Size(usize),
    // 3: a row of a chart names its own craft, a label that no craft has, or a craft whose row lacks it; the first such row
    Row(u8),
    // 4: a chart is too thin; the first pair that a set of craft cuts apart, and the lowest such set
    Thin(u8, u8, CraftSet),
    // 5: a number above 3, or an unsound note said; the number
    Number(u8),
    // 6: the craft has ordered under this number before; the number
    Ordered(u8),
    // 7: an index is not below the count of what waits; the count
    Index(usize),
    // 8: the spare is too small; the spare
    Spare(usize),
    // 9: there is no such link, to one craft of a set or more, or the set is empty; the craft that it would lead from
    NoLink(u8),
    // 10: f other craft are astray already; the label
    Astray(u8),
    // 11: a field or a word of matter is out of range; the first byte of the first such field
    Range(u8),
    // 12: there is nothing to collect, or the slip is not out here; the number
    NoSlip(u8),
    // 13: a buffer or a list is too short; the length that it needs
    Short(usize),
    // 14: a length is wrong, or bytes are cut off
    Cut,
    // 15: a version other than the one that is due; the version due
    Version(u8),
    // 16: a step or a record is of no known kind
    Unknown,
}

// A refusal and the layer that it comes from, which stays on the way up.
#[derive(Clone, Copy, PartialEq, Eq, Debug)]
pub struct Fault {
    pub layer: Layer,
    pub refusal: Refusal,
}

// The layer's number: 1 frames, 2 links, 3 carriers, 4 flight.
impl From<Layer> for u8 {
    ghost from_gives = { λ layer n. n ≡ layer_number layer };

    fn from(layer: Layer) -> u8 {
        match layer {
            Layer::Frames => 1,
            Layer::Links => 2,
            Layer::Carriers => 3,
            Layer::Flight => 4,
        }
    }
}

impl Layer {
    // The fault of a refusal by this layer.
    pub fn refuses(self, refusal: Refusal) -> Fault
        ensures { result ≡ record { layer = self; refusal = refusal } }
    {
        Fault {
            layer: self,
            refusal,
        }
    }
}

impl Refusal {
    // The number that stands for the cause. A method and no conversion: a number alone does not give its refusal back.
    pub fn number(self) -> u8
        ensures { result ≡ number_of self }
    {
        match self {
            Refusal::Label(_) => 1,
            Refusal::Size(_) => 2,
            Refusal::Row(_) => 3,
            Refusal::Thin(_, _, _) => 4,
            Refusal::Number(_) => 5,
            Refusal::Ordered(_) => 6,
            Refusal::Index(_) => 7,
            Refusal::Spare(_) => 8,
            Refusal::NoLink(_) => 9,
            Refusal::Astray(_) => 10,
            Refusal::Range(_) => 11,
            Refusal::NoSlip(_) => 12,
            Refusal::Short(_) => 13,
            Refusal::Cut => 14,
            Refusal::Version(_) => 15,
            Refusal::Unknown => 16,
        }
    }
}

// A fault in words: `refused` and the number of its cause.
impl fmt::Display for Fault {
    ghost output = { λ fault. Some (fault_text fault) };

    fn fmt<W: fmt::Write>(&self, f: &mut fmt::Formatter<W>) -> fmt::Result {
        write!(f, "refused {}", self.refusal.number())
    }
}

impl Error for Fault {}

// How many causes there are: their numbers run from 1 to this, and no two refusals have the same number and values.
pub fn causes() -> u8
    ensures count { NumbersTo result }
    ensures apart { ToldApart }
{
    Refusal::Unknown.number()
}
