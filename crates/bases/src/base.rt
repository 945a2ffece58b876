// A store with the craft astray.
use carriers::Store;
use sets::CraftSet;

// What a relay is made of, beside its chart. A struct of its own, so that a relay lies in memory as it did: the direct carrier has its store
// and the craft astray side by side.
#[derive(Drop)]
pub struct Base<L> {
    pub store: Store<L>,
    pub astray: CraftSet,
}
