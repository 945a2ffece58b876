// Matter and its words: each field at both ends of its range and just outside.
use crate::faults::refused;
use frames::{AnyMatter, Fault, KeepOut, Matter, Observation, Refusal};

// The refusal of a field that begins at a byte.
fn range<T>(byte: u8) -> Result<T, Fault> {
    refused(Refusal::Range(byte))
}

#[test]
fn observations_within_range(rt: HostRuntime) {
    assert!(rt; Observation::new(1, 0, 1, 0).is_ok());
    assert!(rt; Observation::new(65535, 86399, 255, 3).is_ok());
}

#[test]
fn observations_out_of_range(rt: HostRuntime) {
    assert_eq!(rt; Observation::new(0, 0, 1, 0), range(1));
    assert_eq!(rt; Observation::new(1, 86400, 1, 0), range(3));
    assert_eq!(rt; Observation::new(1, u32::MAX, 1, 0), range(3));
    assert_eq!(rt; Observation::new(1, 0, 0, 0), range(6));
    assert_eq!(rt; Observation::new(1, 0, 1, 4), range(7));
    // the first bad field is told
    assert_eq!(rt; Observation::new(0, 86400, 0, 255), range(1));
}

#[test]
fn keep_outs_at_their_ranges(rt: HostRuntime) {
    assert!(rt; KeepOut::new(1, 0, 1).is_ok());
    assert!(rt; KeepOut::new(65535, 86399, 1440).is_ok());
    assert_eq!(rt; KeepOut::new(0, 0, 1), range(1));
    assert_eq!(rt; KeepOut::new(1, 86400, 1), range(3));
    assert_eq!(rt; KeepOut::new(1, 0, 0), range(6));
    assert_eq!(rt; KeepOut::new(1, 0, 1441), range(6));
}

#[test]
fn words_of_the_other_kind(rt: HostRuntime) {
    assert_eq!(rt; Observation::of_word(0x0200010000000001), range(0));
    assert_eq!(rt; KeepOut::of_word(0x0100010000000100), range(0));
}

#[test]
fn words_of_either_kind(rt: HostRuntime) {
    assert!(rt; AnyMatter::of_word(0x01012C000E100C01).is_ok());
    assert!(rt; AnyMatter::of_word(0x020009_00A8C0_05A0).is_ok());
    assert_eq!(rt; AnyMatter::of_word(0), range(0));
    assert_eq!(rt; AnyMatter::of_word(0x0300010000000001), range(0));
    assert_eq!(rt; AnyMatter::of_word(u64::MAX), range(0));
    assert_eq!(rt; AnyMatter::of_word(0x01012C_015180_0C01), range(3));
    assert_eq!(rt; AnyMatter::of_word(0x010001_000000_0004), range(6));
    assert_eq!(rt; AnyMatter::of_word(0x020000_FFFFFF_0000), range(1));
}

#[test]
fn words_come_back(rt: HostRuntime) {
    assert_eq!(rt;
        matter::written_again::<AnyMatter>(0x020009_00A8C0_05A0),
        Ok(0x020009_00A8C0_05A0)
    );
    assert_eq!(rt;
        matter::written_again::<Observation>(0x01012C000E100C01),
        Ok(0x01012C000E100C01)
    );
    assert_eq!(rt;
        matter::written_again::<KeepOut>(0x01012C000E100C01),
        range(0)
    );
}
