// A table as it is sent.
use parsimony::Cell;

// The tree table, the number of states and the costs, the number of columns, the cells and the handed entries.
#[derive(Clone, Copy)]
pub struct Table<'a> {
    pub left: &'a [u16],
    pub right: &'a [u16],
    pub s: usize,
    pub costs: &'a [u16],
    pub c: usize,
    pub cells: &'a [Cell],
    pub handed: &'a [u32],
}
