// The rows of all nodes in one column, as they stand in a row room.
ghost use Rattle.std.specs.Prelude.{◌≡◌, ℕ, ◌+◌, ◌*◌, ◌<◌, ◌≤◌, length, get_or};
ghost use Rattle.parsimony.specs.Allowed.{CostRules};
ghost use Rattle.parsimony.specs.Table.{Legal};
ghost use Rattle.promises.specs.Input.{input_of, nodes};
ghost use Rattle.row_step.specs.Lane.{Within, Calm, RowIs};

use crate::row_at;
use promises::Table;

// A row of s entries for each node of a table of legal tree and costs, one after the other, each entry barred or below
// 2^30.
#[derive(Clone, Copy)]
pub struct Rows<'t, 'r> {
    pub table: Table<'t>,
    pub entries: &'r [u32],
    ghost legal: { Legal table.left.now table.right.now },
    ghost costs: { CostRules table.s table.costs.now },
    ghost room: { nodes (input_of table) * table.s ≤ length entries.now },
    ghost calm: { (v x : ℕ) → v < nodes (input_of table) → x < table.s
        → Within 1073741823 (get_or entries.now (v * table.s + x) 0) },
}

impl<'t, 'r> Rows<'t, 'r> {
    // The row of node v.
    pub fn row(&self, v: usize) -> &'r [u32]
        requires { v < nodes (input_of self.now.table) }
        ensures size { length result.now ≡ self.now.table.s }
        ensures row { RowIs (λ x. get_or self.now.entries.now (v * self.now.table.s + x) 0) result.now }
        ensures calm { Calm result.now }
    {
        row_at(self.entries, self.table.s, v)
    }
}
