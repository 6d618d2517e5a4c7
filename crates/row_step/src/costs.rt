// A cost table, and its rows.
ghost use Rattle.std.specs.Prelude.{◌≡◌, ℕ, ◌*◌, ◌<◌, ◌≤◌, length, get_or};
ghost use Rattle.parsimony.specs.Allowed.{CostRules};
ghost use Rattle.parsimony.specs.Column.{cost_at};
ghost use Rattle.parsimony.specs.Limits.{most_states};
ghost use Rattle.row_step.specs.Lane.{Cheap, RowIs};

use promises::Table;

// s by s costs, each at most 999.
#[derive(Clone, Copy)]
pub struct Costs<'a> {
    pub s: usize,
    pub list: &'a [u16],
    ghost states: { (0 < s) × (s ≤ most_states) },
    ghost count: { length list.now ≡ s * s },
    ghost cheap: { (i : ℕ) → i < s * s → get_or list.now i 0 ≤ 999 },
}

impl<'a> Costs<'a> {
    // The costs of the changes from state x.
    pub fn row(&self, x: usize) -> &'a [u16]
        requires { x < self.now.s }
        ensures cheap { Cheap result.now self.now.s }
        ensures row { RowIs (cost_at self.now.s self.now.list.now x) result.now }
    {
        let at = x * self.s;
        &self.list[at..at + self.s]
    }
}

// The costs of a table that keeps their rules.
pub fn costs_of<'a>(table: &Table<'a>) -> Costs<'a>
    requires { CostRules table.now.s table.now.costs.now }
    ensures { (result.s ≡ table.now.s) × (result.list.now ≡ table.now.costs.now) }
{
    Costs {
        s: table.s,
        list: table.costs,
    }
}
