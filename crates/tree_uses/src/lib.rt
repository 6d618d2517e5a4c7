// Marks: for each number up to 1,022 how many nodes use it, as a child or as a row.
#![tactic(auto)]

ghost use Rattle.std.specs.Prelude.{◌≡◌, ℕ, ◌+◌, ◌<◌, ◌≤◌, length, get_or};
ghost use Rattle.parsimony.specs.Table.{SizeRules, kids_of, child_uses};
ghost use Rattle.parsimony.specs.Tells.{Tells};
ghost use Rattle.parsimony.specs.Test.{at};
ghost use Rattle.parsimony.specs.Tree.{each};
ghost use Rattle.promises.specs.Input.{input_of, node_in, nodes};
ghost use Rattle.tree_uses.specs.Marks.{MarksAre, Most, Raised, Took};
ghost use Rattle.tree_nodes.specs.NodeOf.{node_of};

use parsimony::MOST_NODES;
use promises::Table;
use tree_nodes::nodes::{Node, node_at};

// Adds a use of u to the marks, where they have an entry for it.
fn add_use(marks: &mut [u16; MOST_NODES], u: usize)
    requires { Most 65534 marks.old }
    ensures { Raised (λ w. at w 1 u) marks.old marks.new }
{
    if u < MOST_NODES {
        marks[u] += 1;
    }
}

// Adds the node's uses of its children.
fn note_kids(node: Node, marks: &mut [u16; MOST_NODES])
    requires { Most 65533 marks.old }
    ensures { Raised (λ w. each (at w 1) (kids_of (node_of node))) marks.old marks.new }
{
    match node {
        Node::Symbol(_) | Node::Handed(_) => {}
        Node::Inner(a, b) => {
            add_use(marks, a);
            add_use(marks, b);
        }
    }
}

// Adds the uses of children by the nodes from first on to marks that count those by the nodes below it.
pub fn note_children(table: &Table, first: usize, used: &mut [u16; MOST_NODES])
    requires size_rules { SizeRules table.now.left.now table.now.right.now × (first ≤ length table.now.left.now) }
    requires marks_are { MarksAre (child_uses (node_in (input_of table.now)) first) used.old }
    ensures { MarksAre (child_uses (node_in (input_of table.now)) (nodes (input_of table.now))) used.new }
{
    for v in first..table.left.len() {
        note_kids(node_at(table, v), used);
    }
}

// Whether a row is free, with its number below t and no lower node that has it; if so, its use is added to the marks.
pub fn take_row(r: usize, t: usize, rows: &mut [u16; MOST_NODES]) -> bool
    requires { (t ≤ 1023) × Most 65534 rows.old }
    ensures { Took ((r < t) × (get_or rows.old r 0 ≡ 0)) (λ w. at w 1 r)
        rows.old rows.new result }
{
    let free = r < t && rows[r] == 0;
    if free {
        add_use(rows, r);
    }
    free
}

// Whether the two children of node v are free: different, below v, and named by no lower node; if so, their uses are
// added to the marks.
pub fn take_kids(a: usize, b: usize, v: usize, seen: &mut [u16; MOST_NODES]) -> bool
    requires { (v ≤ 1023) × Most 65533 seen.old }
    ensures { Took
        ((a < v) × (b < v) × (a ≡ b → ⊥) × (get_or seen.old a 0 ≡ 0) × (get_or seen.old b 0 ≡ 0))
        (λ w. at w 1 a + at w 1 b) seen.old seen.new result }
{
    let free = a < v && b < v && a != b && seen[a] == 0 && seen[b] == 0;
    if free {
        add_use(seen, a);
        add_use(seen, b);
    }
    free
}

// Every number below the end has a use. The loop has no way out but its end: it can work on many numbers at once.
pub fn all_used(end: usize, marks: &[u16; MOST_NODES]) -> bool
    requires { end ≤ 1023 }
    ensures { Tells ((w : ℕ) → w < end → 1 ≤ get_or marks.now w 0) result }
{
    let mut fewest = u16::MAX;
    for &uses in &marks[..end] {
        fewest = fewest.min(uses);
    }
    fewest != 0
}
