// The kinds of matter. A value has its fields in range: nothing else can be made.
ghost use Rattle.std.specs.Prelude.{◌≤◌};

// the last second of a day
pub const LAST_SECOND: u32 = 86399;

// A target to be imaged, from a second of the day on, for some seconds, in a camera mode.
#[derive(Clone, Copy, PartialEq, Eq, Debug)]
pub struct Observation {
    pub target: u16,
    pub start: u32,
    pub length: u8,
    pub mode: u8,
    ghost named: { (1 ≤ target) × (target ≤ 65535) },
    ghost today: { start ≤ 86399 },
    ghost lasts: { (1 ≤ length) × (length ≤ 255) },
    ghost known: { mode ≤ 3 },
}

// A zone to be kept out of, from a second of the day on, for some minutes.
#[derive(Clone, Copy, PartialEq, Eq, Debug)]
pub struct KeepOut {
    pub zone: u16,
    pub first: u32,
    pub minutes: u16,
    ghost named: { (1 ≤ zone) × (zone ≤ 65535) },
    ghost today: { first ≤ 86399 },
    ghost lasts: { (1 ≤ minutes) × (minutes ≤ 1440) },
}
