// The entries of a node's row, on any rows lent: a symbol tip's from its cell, and an inner node's from its children's
// rows, which is the row step.
#![tactic(auto)]

ghost use Rattle.std.specs.Prelude.{◌≡◌, ◌+◌, ◌*◌, ◌<◌, ◌≤◌, length, get_or};
ghost use Rattle.parsimony.specs.Barred.{plus};
ghost use Rattle.parsimony.specs.Column.{cell_entry, cost_at};
ghost use Rattle.parsimony.specs.Least.{least};
ghost use Rattle.parsimony.specs.Limits.{most_states};
ghost use Rattle.parsimony.specs.Written.{entries};
ghost use Rattle.row_step.specs.Lane.{Within, lane, Calm, Cheap, join, RowIs};

use parsimony::{BARRED, Cell};
use states::States;

mod costs;
mod rows;

pub use costs::{Costs, costs_of};
pub use rows::Rows;

// The sum in which a barred term bars: BARRED is the largest number, and no sum of costs comes near it.
fn barred_sum(a: u32, b: u32) -> u32
    requires { Within 2000000000 a × Within 2000000000 b }
    ensures { result ≡ plus a b }
{
    a.saturating_add(b)
}

// The row of node u among rows of s entries, one after the other.
pub fn row_at(rows: &[u32], s: usize, u: usize) -> &[u32]
    requires { u * s + s ≤ length rows.now }
    ensures size { length result.now ≡ s }
    ensures row { RowIs (λ x. get_or rows.now (u * s + x) 0) result.now }
{
    let at = u * s;
    &rows[at..at + s]
}

// A child in state y: the change and the child's entry.
pub fn through(costs: &[u16], row: &[u32], y: usize) -> u32
    requires cheap { Cheap costs.now (length row.now) }
    requires calm { Calm row.now }
    requires state { y < length row.now }
    ensures { result ≡ lane (entries costs.now) (entries row.now) y }
{
    barred_sum(u32::from(costs[y]), row[y])
}

// The least over the child's states.
pub fn least_up(costs: &[u16], row: &[u32]) -> u32
    requires cheap { Cheap costs.now (length row.now) }
    requires calm { Calm row.now }
    requires some { 0 < length row.now }
    ensures { result ≡ least (lane (entries costs.now) (entries row.now)) (length row.now) }
{
    let mut best = BARRED;
    for y in 0..row.len() {
        best = best.min(through(costs, row, y));
    }
    best
}

// The row of a symbol tip: 0 in its cell's states and barred elsewhere.
pub fn cell_row(cell: Cell, row: &mut [u32])
    requires { length row.old ≤ most_states }
    ensures { RowIs (cell_entry cell) row.new }
{
    for (x, entry) in row.iter_mut().enumerate() {
        *entry = if States(cell).has(x) { 0 } else { BARRED };
    }
}

// A row as it stands elsewhere: a handed tip's, or the root's that is handed up.
// Entry by entry: for the library's `copy_from_slice` an archive for C would need a function from outside.
pub fn copy_row(source: &[u32], row: &mut [u32])
    requires { length row.old ≡ length source.now }
    ensures { RowIs (entries source.now) row.new }
{
    for (x, entry) in row.iter_mut().enumerate() {
        *entry = source[x];
    }
}

// An inner node's entry for one state: both children's least added.
fn join_entry(costs: &[u16], a: &[u32], b: &[u32]) -> u32
    requires cheap { Cheap costs.now (length a.now) × (length b.now ≡ length a.now) }
    requires calm { Calm a.now × Calm b.now }
    requires some { 0 < length a.now }
    ensures { result ≡ plus (least (lane (entries costs.now) (entries a.now)) (length a.now))
        (least (lane (entries costs.now) (entries b.now)) (length a.now)) }
{
    barred_sum(least_up(costs, a), least_up(costs, b))
}

// The row step: an inner node's row from its children's rows.
pub fn inner_row(costs: &Costs, a: &[u32], b: &[u32], row: &mut [u32])
    requires states { (length a.now ≡ costs.now.s) × (length b.now ≡ costs.now.s) × (length row.old ≡ costs.now.s) }
    requires calm { Calm a.now × Calm b.now }
    ensures { RowIs (join (cost_at costs.now.s costs.now.list.now) costs.now.s (entries a.now) (entries b.now)) row.new }
{
    for (x, entry) in row.iter_mut().enumerate() {
        *entry = join_entry(costs.row(x), a, b);
    }
}
