// The root's row: its least entry, and the marks of all nodes from it down.
#![tactic(auto)]

ghost use Rattle.std.specs.Prelude.{◌≡◌, ◌*◌, ◌-◌, ◌<◌, ◌≤◌, length, map, IfSome};
ghost use Rattle.parsimony.specs.Least.{least};
ghost use Rattle.parsimony.specs.Limits.{most_states};
ghost use Rattle.promises.specs.Input.{input_of, nodes};
ghost use Rattle.promises.specs.Starts.{start_or};
ghost use Rattle.choice_steps.specs.Marks.{row_of, Walked};

use choice_steps::least_entry;
use row_step::{Rows, row_at};
use walk_down::{Mark, fill};

// The least entry of the root's row, where there are n nodes and s states.
pub fn root_least(rows: &[u32], n: usize, s: usize) -> u32
    requires some { (0 < n) × (n ≤ 1023) × (0 < s) × (s ≤ most_states) }
    requires room { n * s ≤ length rows.now }
    ensures { result ≡ least (row_of s rows.now (n - 1)) s }
{
    least_entry(row_at(rows, s, n - 1))
}

// The root's mark: the one given, or what its row leaves it free to take.
fn root_mark<M: Mark>(rows: &Rows, start: Option<usize>) -> M
    requires { IfSome start (λ x. M.Fits rows.now.table.s x) }
    ensures { let I = input_of rows.now.table in
        M.number result ≡ start_or start (M.free_of (row_of I.s rows.now.entries.now (nodes I - 1)) I.s) }
{
    match start {
        None => M::free(rows.row(rows.table.left.len() - 1)),
        Some(x) => M::given(x),
    }
}

// The marks of all nodes from the root's down, read off the rows.
pub fn marks_down<M: Mark>(rows: &Rows, start: Option<usize>, marks: &mut [M])
    requires room { nodes (input_of rows.now.table) ≤ length marks.old }
    requires start { IfSome start (λ x. M.Fits rows.now.table.s x) }
    ensures { let I = input_of rows.now.table in
        Walked M.passed I rows.now.entries.now
        (start_or start (M.free_of (row_of I.s rows.now.entries.now (nodes I - 1)) I.s))
        (map M.number marks.old) (map M.number marks.new) }
{
    let root: M = root_mark(rows, start);
    fill(rows, root, marks);
}
