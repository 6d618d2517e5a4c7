// The rules of costs, and unit costs.
ghost use Rattle.std.specs.Prelude.{◌≡◌, ℕ, ◌+◌, ◌*◌, ◌<◌, eqb, length, get_or};
ghost use Rattle.parsimony.specs.Allowed.{CostRules};
ghost use Rattle.parsimony.specs.Column.{cost_at};
ghost use Rattle.parsimony.specs.Counting.{UnitCosts};
ghost use Rattle.parsimony.specs.Tells.{Tells};
ghost use Rattle.parsimony.specs.Test.{pick};

use crate::ranges::all_within;
use parsimony::{MOST_COST, MOST_STATES};

// s is 2 to 16, the costs are s by s, each at most 999, and 0 on the diagonal.
pub fn costs_fit(s: usize, costs: &[u16]) -> bool
    ensures { Tells (CostRules s costs.now) result }
{
    2 <= s
        && s <= MOST_STATES
        && costs.len() == s * s
        && all_within(costs, 0, MOST_COST)
        && diagonal_free(s, costs)
}

// The costs of s states are 0 on the diagonal.
fn diagonal_free(s: usize, costs: &[u16]) -> bool
    requires { length costs.now ≡ s * s }
    ensures { Tells ((x : ℕ) → x < s → get_or costs.now (x * s + x) 0 ≡ 0) result }
{
    for x in 0..s {
        if costs[x * s + x] != 0 {
            return false;
        }
    }
    true
}

// The costs are unit costs: 0 on the diagonal and 1 off it.
pub fn unit_costs(s: usize, costs: &[u16]) -> bool
    requires { CostRules s costs.now }
    ensures { Tells (UnitCosts s (cost_at s costs.now)) result }
{
    for x in 0..s {
        if !unit_row(s, costs, x) {
            return false;
        }
    }
    true
}

// Row x of the costs is 0 at x and 1 elsewhere.
fn unit_row(s: usize, costs: &[u16], x: usize) -> bool
    requires { (x < s) × (length costs.now ≡ s * s) }
    ensures { Tells ((y : ℕ) → y < s → cost_at s costs.now x y ≡ pick (eqb x y) 0 1) result }
{
    for y in 0..s {
        if costs[x * s + y] != u16::from(x != y) {
            return false;
        }
    }
    true
}
