// A run leads one way, from its tail to its head, and has a weight. Runs are numbered from 0 by their place in a table.
#[derive(Clone, Copy)]
pub struct Run<W> {
    pub tail: u16,
    pub head: u16,
    pub weight: W,
}
