// From the root down: a state or a set of states for each node of a column, read off the rows.
#![tactic(auto)]

ghost use Rattle.std.specs.Prelude.{◌≡◌, ◌<◌, ◌≤◌, length, map};
ghost use Rattle.parsimony.specs.Table.{kids_at};
ghost use Rattle.promises.specs.Input.{input_of, nodes};
ghost use Rattle.choice_steps.specs.Marks.{gives, Walked};
ghost use Rattle.walk_down.specs.Pass.{PassedOn};

use row_step::{Rows, costs_of};
use tree_nodes::nodes::{Node, node_at};

mod marks;

pub use marks::Mark;

// Gives each child of node v, which has the mark, its own.
fn pass_on<M: Mark>(rows: &Rows, v: usize, mark: M, marks: &mut [M])
    requires node { (v < nodes (input_of rows.now.table)) × (nodes (input_of rows.now.table) ≤ length marks.old) }
    requires fits { M.Fits rows.now.table.s (M.number mark) }
    ensures { let I = input_of rows.now.table in
        PassedOn (kids_at I.left I.right v) (gives M.passed I rows.now.entries.now) (M.number mark)
        (map M.number marks.old) (map M.number marks.new) }
{
    match node_at(&rows.table, v) {
        Node::Symbol(_) | Node::Handed(_) => {}
        Node::Inner(a, b) => {
            let costs = costs_of(&rows.table);
            marks[a] = mark.pass(&costs, rows.row(a));
            marks[b] = mark.pass(&costs, rows.row(b));
        }
    }
}

// The mark of each node from a start for the root.
pub fn fill<M: Mark>(rows: &Rows, start: M, marks: &mut [M])
    requires room { nodes (input_of rows.now.table) ≤ length marks.old }
    requires fits { M.Fits rows.now.table.s (M.number start) }
    ensures { Walked M.passed (input_of rows.now.table) rows.now.entries.now (M.number start)
        (map M.number marks.old) (map M.number marks.new) }
{
    let n = rows.table.left.len();
    marks[n - 1] = start;
    for v in (0..n).rev() {
        pass_on(rows, v, marks[v], marks);
    }
}
