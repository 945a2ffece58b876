// The agreement theorem, called for the direct carrier over each link service: both satisfy what it asks of a type of carriers.
use agreement::agreement_over;
use carriers::Direct;
use links::EntryList;
use putlog::PutLog;

#[test]
fn agreement_over_both_services(rt: HostRuntime) {
    assert_eq!(rt; agreement_over::<Direct<PutLog>>(), 3);
    assert_eq!(rt; agreement_over::<Direct<EntryList>>(), 3);
}
