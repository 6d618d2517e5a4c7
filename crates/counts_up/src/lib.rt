// Counting by sets: the preliminary sets and the change count of a column.
#![tactic(auto)]

ghost use Rattle.std.specs.Prelude.{◌≡◌, ℕ, ◌*◌, ◌<◌, ◌≤◌, length, get_or};
ghost use Rattle.parsimony.specs.Counting.{meet, change, counted_at};
ghost use Rattle.parsimony.specs.Table.{symbol, kids_at, Legal};
ghost use Rattle.parsimony.specs.Tree.{merge};
ghost use Rattle.promises.specs.Input.{input_of, nodes, tips_in};
ghost use Rattle.counts_up.specs.Prelims.{Prelims};

use parsimony::Cell;
use promises::Table;
use states::States;
use tree_nodes::nodes::{Node, node_at};

// A node's preliminary set, and how many changes are counted at the node: 1 or none.
#[derive(Clone, Copy)]
struct Counted {
    set: Cell,
    changes: usize,
}

// An inner node's, from its children's sets: their common part if not empty, else their union and a change.
fn join(a: Cell, b: Cell) -> Counted
    ensures { (result.set ≡ meet a b) × (result.changes ≡ change a b) }
{
    let common = States(a).common(States(b));
    let union = States(a).union(States(b));
    Counted {
        set: if common.0 == 0 { union.0 } else { common.0 },
        changes: usize::from(common.0 == 0),
    }
}

// Node v's, where the sets of the nodes below it stand in the list. A handed tip has no cell: it gets the empty set.
fn node_count(table: &Table, j: usize, v: usize, sets: &[Cell]) -> Counted
    requires legal { Legal table.now.left.now table.now.right.now }
    requires cells { (length table.now.cells.now ≡ tips_in symbol (input_of table.now) * table.now.c) × (j < table.now.c)
        × (table.now.c ≤ 65535) }
    requires node { (v < nodes (input_of table.now)) × (v ≤ length sets.now) }
    requires below { let I = input_of table.now in
        (u : ℕ) → u < v → get_or sets.now u 0 ≡ (counted_at I.left I.right I.c I.cells j u).set }
    ensures { let I = input_of table.now in
        (result.set ≡ (counted_at I.left I.right I.c I.cells j v).set)
        × (result.changes ≡ merge (kids_at I.left I.right v) 0 change
        (λ u. (counted_at I.left I.right I.c I.cells j u).set)) }
{
    match node_at(table, v) {
        Node::Symbol(r) => Counted {
            set: table.cells[r * table.c + j],
            changes: 0,
        },
        Node::Handed(_) => Counted { set: 0, changes: 0 },
        Node::Inner(a, b) => join(sets[a], sets[b]),
    }
}

// Each node's preliminary set in column j, and the number of changes.
pub fn fill_prelims(table: &Table, j: usize, sets: &mut [Cell]) -> usize
    requires legal { Legal table.now.left.now table.now.right.now }
    requires cells { (length table.now.cells.now ≡ tips_in symbol (input_of table.now) * table.now.c) × (j < table.now.c)
        × (table.now.c ≤ 65535) }
    requires room { nodes (input_of table.now) ≤ length sets.old }
    ensures { let I = input_of table.now in Prelims I.left I.right I.c I.cells j sets.old sets.new result }
{
    let mut changes = 0;
    for v in 0..table.left.len() {
        let node = node_count(table, j, v, sets);
        sets[v] = node.set;
        changes += node.changes;
    }
    changes
}
