// The frame reader, at the edges of what it judges.
use crate::faults::refused;
use frames::{FRAME_VERSION, Frame, Head, Note, Received, Refusal, Step, read_frame};

const SEND: [u8; 15] = [
    15, 1, 1, 0, 0, 0, 0, 0x01, 0x01, 0x2C, 0x00, 0x0E, 0x10, 0x0C, 0x01,
];

// What stands between its step and its content.
const HEAD: Head = Head {
    author: 0,
    origin: 0,
    number: 0,
    set: 0,
};

// The frame's bytes with one of them changed.
fn changed(at: usize, byte: u8) -> [u8; 15] {
    let mut bytes = SEND;
    if at < 15 {
        bytes[at] = byte;
    }
    bytes
}

#[test]
fn lengths_other_than_fifteen(rt: HostRuntime) {
    assert_eq!(rt; Frame::from_bytes(&[]), refused(Refusal::Cut));
    assert_eq!(rt; Frame::from_bytes(&[15]), refused(Refusal::Cut));
    assert_eq!(rt; Frame::from_bytes(&SEND[0..7]), refused(Refusal::Cut));
    assert_eq!(rt; Frame::from_bytes(&SEND[0..14]), refused(Refusal::Cut));
    let long = [15, 1, 1, 0, 0, 0, 0, 1, 2, 3, 4, 5, 6, 7, 8, 9];
    assert_eq!(rt; Frame::from_bytes(&long), refused(Refusal::Cut));
    assert_eq!(rt; Frame::from_bytes(&changed(0, 14)), refused(Refusal::Cut));
    assert_eq!(rt; Frame::from_bytes(&changed(0, 16)), refused(Refusal::Cut));
}

#[test]
fn versions_and_steps(rt: HostRuntime) {
    assert_eq!(rt;
        Frame::from_bytes(&changed(1, 0)),
        refused(Refusal::Version(FRAME_VERSION))
    );
    assert_eq!(rt;
        Frame::from_bytes(&changed(1, 2)),
        refused(Refusal::Version(1))
    );
    assert_eq!(rt;
        Frame::from_bytes(&changed(2, 0)),
        refused(Refusal::Unknown)
    );
    assert_eq!(rt;
        Frame::from_bytes(&changed(2, 4)),
        refused(Refusal::Unknown)
    );
    // of several causes the first is told: length, version, step
    assert_eq!(rt; Frame::from_bytes(&[9, 9, 9]), refused(Refusal::Cut));
    let both = [15, 9, 9, 0, 0, 0, 0, 0, 0, 0, 0, 0, 0, 0, 0];
    assert_eq!(rt; Frame::from_bytes(&both), refused(Refusal::Version(1)));
}

#[test]
fn nothing_else_is_judged(rt: HostRuntime) {
    let bytes = [15, 1, 3, 255, 254, 253, 252, 0, 0, 0, 0, 0, 0, 0, 7];
    let note = Note {
        step: Step::Ready,
        origin: 254,
        number: 253,
        content: 7,
    };
    let frame = Frame {
        author: 255,
        note,
        set: 252,
    };
    assert_eq!(rt; Frame::from_bytes(&bytes), Ok(frame));
}

#[test]
fn content_is_part_of_the_bytes(rt: HostRuntime) {
    assert_eq!(rt; read_frame(&SEND), Ok(Received::Send(HEAD, &SEND[7..15])));
}

#[test]
fn a_made_up_content(rt: HostRuntime) {
    assert_eq!(rt;
        Received::Send(HEAD, &SEND[7..14]).frame(),
        refused(Refusal::Cut)
    );
    assert_eq!(rt; Received::Echo(HEAD, &SEND).frame(), refused(Refusal::Cut));
}

#[test]
fn soundness_of_notes(rt: HostRuntime) {
    let note = Note {
        step: Step::Send,
        origin: 3,
        number: 3,
        content: 0,
    };
    assert!(rt; note.is_sound(4, 3));
    assert!(rt; !note.is_sound(3, 3));
    assert!(rt; !note.is_sound(4, 2));
    let echo = Note {
        step: Step::Echo,
        origin: 3,
        number: 4,
        content: 0,
    };
    assert!(rt; !echo.is_sound(4, 2));
}
