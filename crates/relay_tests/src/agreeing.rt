// The agreement theorem, called for the relay over each link service: both satisfy what it asks of a type of carriers.
use agreement::agreement_over;
use links::EntryList;
use putlog::PutLog;
use relay::Relay;

#[test]
fn agreement_over_both_services(rt: HostRuntime) {
    assert_eq!(rt; agreement_over::<Relay<PutLog>>(), 3);
    assert_eq!(rt; agreement_over::<Relay<EntryList>>(), 3);
}
