// The bytes that README.md tells of.
use links::Entry;
use putlog::{LoggedPut, PutLog};
use std::mem::size_of;

#[test]
fn bytes_of_both_services(rt: HostRuntime) {
    assert_eq!(rt; size_of::<Entry>(), 32);
    assert_eq!(rt; size_of::<[Entry; 1008]>(), 32256);
    assert_eq!(rt; size_of::<LoggedPut>(), 32);
    assert_eq!(rt; size_of::<PutLog>(), 4120);
}
