// The test of a tree: the lowest node at fault.
#![tactic(auto)]

ghost use Rattle.std.specs.Prelude.{suc, ◌<◌, ◌≤◌, get_or};
ghost use Rattle.parsimony.specs.Fault.{KeepsEntries};
ghost use Rattle.parsimony.specs.Table.{SizeRules, child_uses};
ghost use Rattle.parsimony.specs.Tells.{Tells};
ghost use Rattle.promises.specs.Input.{input_of, node_in, nodes};
ghost use Rattle.tree_uses.specs.Marks.{MarksAre};
ghost use Rattle.tree_test.specs.Found.{Found};
ghost use Rattle.tree_test.specs.Visit.{FirstNot, Surveyed, Marked, ToVisit, Visited};

use parsimony::MOST_NODES;
use promises::Table;
use tree_nodes::nodes::{Node, Tips, node_at, tips_of};
use tree_uses::{all_used, note_children, take_kids, take_row};

// Marks of what the nodes use that have been visited: as a child, as a matrix row and as a handed row.
#[derive(Clone, Copy)]
struct Marks {
    seen: [u16; MOST_NODES],
    rows: [u16; MOST_NODES],
    given: [u16; MOST_NODES],
}

// Whether the entries of node v keep their rules; if so, its uses are added to the marks.
fn visit(table: &Table, v: usize, tips: Tips, marks: &mut Marks) -> bool
    requires size { SizeRules table.now.left.now table.now.right.now }
    requires to_visit { ToVisit (nodes (input_of table.now)) (node_in (input_of table.now)) v
        tips.symbol tips.handed marks.old.seen marks.old.rows marks.old.given }
    ensures { Visited (nodes (input_of table.now)) (node_in (input_of table.now)) v
        marks.new.seen marks.new.rows marks.new.given result }
{
    match node_at(table, v) {
        Node::Symbol(r) => take_row(r, tips.symbol, &mut marks.rows),
        Node::Handed(k) => take_row(k, tips.handed, &mut marks.given),
        Node::Inner(a, b) => take_kids(a, b, v, &mut marks.seen),
    }
}

// The lowest node whose entries break their rules, or n where all keep them, from marks that are all 0.
fn walk(table: &Table, tips: Tips, marks: &mut Marks) -> usize
    requires size { SizeRules table.now.left.now table.now.right.now }
    requires surveyed { Surveyed (nodes (input_of table.now)) (node_in (input_of table.now)) tips.symbol tips.handed }
    requires marked { Marked (node_in (input_of table.now)) 0 marks.old.seen marks.old.rows marks.old.given }
    ensures first_not { FirstNot
        (λ v. KeepsEntries (nodes (input_of table.now)) (node_in (input_of table.now)) v
        (node_in (input_of table.now) v)) (nodes (input_of table.now)) result }
    ensures marks_are { MarksAre (child_uses (node_in (input_of table.now)) result) marks.new.seen }
{
    for v in 0..table.left.len() {
        if !visit(table, v, tips, marks) {
            return v;
        }
    }
    table.left.len()
}

// Node v of n is the last, or some node names it as a child.
fn has_parent(v: usize, n: usize, used: &[u16; MOST_NODES]) -> bool
    requires { (v < n) × (n ≤ 1023) }
    ensures { Tells (suc v < n → 1 ≤ get_or used.now v 0) result }
{
    v + 1 == n || used[v] != 0
}

// The lowest node below the limit, but for the last of n, that no node names as a child, or the limit if there is none.
// Where the limit is n, as in every legal tree, all nodes are looked at together first.
fn first_unused(n: usize, limit: usize, used: &[u16; MOST_NODES]) -> usize
    requires { (limit ≤ n) × (1 ≤ n) × (n ≤ 1023) }
    ensures { FirstNot (λ v. suc v < n → 1 ≤ get_or used.now v 0) limit result }
{
    if limit == n && all_used(n - 1, used) {
        return limit;
    }
    for u in 0..limit {
        if !has_parent(u, n, used) {
            return u;
        }
    }
    limit
}

// How many tips of each kind a legal tree has; else the lowest node at fault: the first whose entries break their
// rules, or an unused node below it.
pub fn check_tree(table: &Table) -> Result<Tips, usize>
    requires { SizeRules table.now.left.now table.now.right.now }
    ensures { Found (nodes (input_of table.now)) (node_in (input_of table.now)) result }
{
    let tips = tips_of(table);
    let mut marks = Marks {
        seen: [0; MOST_NODES],
        rows: [0; MOST_NODES],
        given: [0; MOST_NODES],
    };
    let broken = walk(table, tips, &mut marks);
    note_children(table, broken, &mut marks.seen);
    let fault = first_unused(table.left.len(), broken, &marks.seen);
    if fault != table.left.len() {
        return Err(fault);
    }
    Ok(tips)
}
