// The memory that the relay takes.
use pathsets::{Listener, Outcome};
use putlog::PutLog;
use relay::Relay;
use std::mem::size_of;

#[test]
fn bytes_of_the_relay(rt: HostRuntime) {
    assert_eq!(rt; size_of::<Listener>(), 4);
    assert_eq!(rt; size_of::<Outcome>(), 3);
    assert_eq!(rt; size_of::<Relay<PutLog>>(), 27248);
}
