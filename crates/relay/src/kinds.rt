// The relay.
use bases::Base;
use cuts::PassedChart;

// A carrier on a chart that no 2f craft cut: a note goes from craft to craft, and is heard once no f craft could have made up all the ways by which it came.
#[derive(Drop)]
pub struct Relay<L> {
    pub(crate) base: Base<L>,
    pub(crate) passed: PassedChart,
}
