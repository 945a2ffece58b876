// What a carrier over a link service is made of, beside its chart and the craft astray.
use shelves::Table;

// A link service, and a shelf for each craft.
#[derive(Drop)]
pub struct Store<L> {
    pub links: L,
    pub table: Table,
}
