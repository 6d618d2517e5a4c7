// The choosing step and the set step, each on any row lent to it: the state that is taken, and all that may be.
#![tactic(auto)]

ghost use Rattle.std.specs.Prelude.{◌≡◌, ◌<◌, ◌≤◌, length};
ghost use Rattle.parsimony.specs.Column.{cost_at};
ghost use Rattle.parsimony.specs.Least.{low, least};
ghost use Rattle.parsimony.specs.Limits.{most_states};
ghost use Rattle.parsimony.specs.Tie.{rule_in_use};
ghost use Rattle.parsimony.specs.Written.{entries, Each};
ghost use Rattle.row_step.specs.Lane.{lane, Calm, Cheap};
ghost use Rattle.choice_steps.specs.Ties.{reached_under, least_set};

use parsimony::{BARRED, Cell, MOST_STATES};
use row_step::{Costs, through};
use states::States;

// The sums of a child's states: the change and the child's entry.
fn sums(costs: &[u16], row: &[u32]) -> [u32; MOST_STATES]
    requires cheap { Cheap costs.now (length row.now) }
    requires calm { Calm row.now }
    requires few { length row.now ≤ most_states }
    ensures room { length row.now ≤ length result }
    ensures each { Each (length row.now) (λ y e. e ≡ lane (entries costs.now) (entries row.now) y) (entries result) }
{
    let mut sums = [BARRED; MOST_STATES];
    for y in 0..row.len() {
        sums[y] = through(costs, row, y);
    }
    sums
}

// The choosing step: the state of a child under a parent in state x, by the tie rule in use. Of the states that reach
// the least it is the lowest.
pub fn choose(costs: &Costs, x: usize, row: &[u32]) -> usize
    requires states { (x < costs.now.s) × (length row.now ≡ costs.now.s) }
    requires calm { Calm row.now }
    ensures { result ≡ rule_in_use costs.now.s x
        (lane (cost_at costs.now.s costs.now.list.now x) (entries row.now)) }
{
    // One pass: `lowest_least` of the sums is two, and labelling then takes a quarter longer.
    let changes = costs.row(x);
    let mut best = through(changes, row, 0);
    let mut lowest = 0;
    for y in 1..row.len() {
        let sum = through(changes, row, y);
        if sum < best {
            best = sum;
            lowest = y;
        }
    }
    lowest
}

// The lowest state at which a row is least.
pub fn lowest_least(row: &[u32]) -> usize
    requires { 0 < length row.now }
    ensures { result ≡ low (entries row.now) (length row.now) }
{
    let mut lowest = 0;
    for y in 1..row.len() {
        if row[y] < row[lowest] {
            lowest = y;
        }
    }
    lowest
}

// The least entry of a row.
pub fn least_entry(row: &[u32]) -> u32
    requires { 0 < length row.now }
    ensures { result ≡ least (entries row.now) (length row.now) }
{
    row[lowest_least(row)]
}

// The states at which a row is least.
pub fn least_set(row: &[u32]) -> Cell
    requires { (0 < length row.now) × (length row.now ≤ most_states) }
    ensures { result ≡ least_set (entries row.now) (length row.now) }
{
    let best = least_entry(row);
    let mut set = States::NONE;
    for y in 0..row.len() {
        if row[y] == best {
            set = set.union(States::one(y));
        }
    }
    set.0
}

// The states of a child that reach the least under a parent in state x.
fn reach_set(costs: &Costs, x: usize, row: &[u32]) -> States
    requires states { (x < costs.now.s) × (length row.now ≡ costs.now.s) }
    requires calm { Calm row.now }
    ensures { result.0 ≡ least_set (lane (cost_at costs.now.s costs.now.list.now x) (entries row.now))
        costs.now.s }
{
    let sums = sums(costs.row(x), row);
    States(least_set(&sums[..row.len()]))
}

// The set step: the states of a child that reach the least under some state of its parent's set.
pub fn child_set(costs: &Costs, row: &[u32], parent: Cell) -> Cell
    requires states { length row.now ≡ costs.now.s }
    requires calm { Calm row.now }
    ensures { result ≡ reached_under (cost_at costs.now.s costs.now.list.now) (entries row.now)
        costs.now.s parent costs.now.s }
{
    let mut set = States::NONE;
    for x in 0..row.len() {
        if States(parent).has(x) {
            set = set.union(reach_set(costs, x, row));
        }
    }
    set.0
}
