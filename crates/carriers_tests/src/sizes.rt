// The memory that the direct carrier takes.
use carriers::Direct;
use putlog::PutLog;
use shelves::{Row, Table};
use std::mem::size_of;

#[test]
fn bytes_of_the_direct_carrier(rt: HostRuntime) {
    assert_eq!(rt; size_of::<Row>(), 24);
    assert_eq!(rt; size_of::<Table>(), 23104);
    assert_eq!(rt; size_of::<Direct<PutLog>>(), 27240);
}
