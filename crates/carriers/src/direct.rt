// The direct carrier.
use crate::store::Store;
use cuts::CompleteChart;
use sets::CraftSet;

// A carrier on a chart on which every two craft are linked: a note is heard only from its author, over the link between the two.
#[derive(Drop)]
pub struct Direct<L> {
    pub(crate) store: Store<L>,
    pub(crate) complete: CompleteChart,
    pub(crate) astray: CraftSet,
}
