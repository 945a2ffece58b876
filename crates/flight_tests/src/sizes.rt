// The memory that a flight takes.
use carriers::Direct;
use flight::{Flight, Slip};
use frames::AnyMatter;
use links::EntryList;
use putlog::PutLog;
use relay::Relay;
use std::mem::size_of;
use votes::{CraftVotes, Table, Votes};

#[test]
fn bytes_of_a_flight(rt: HostRuntime) {
    assert_eq!(rt; size_of::<Votes>(), 144);
    assert_eq!(rt; size_of::<CraftVotes>(), 4608);
    assert_eq!(rt; size_of::<Table>(), 36_864);
    assert_eq!(rt; size_of::<Slip>(), 4);
    assert_eq!(rt; size_of::<Flight<Direct<PutLog>, AnyMatter>>(), 64_112);
    assert_eq!(rt; size_of::<Flight<Direct<EntryList>, AnyMatter>>(), 60_032);
    assert_eq!(rt; size_of::<Flight<Relay<PutLog>, AnyMatter>>(), 64_120);
    assert_eq!(rt; size_of::<Flight<Relay<EntryList>, AnyMatter>>(), 60_040);
}
