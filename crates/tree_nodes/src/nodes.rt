// The tree table: its size, its nodes and its tips.
ghost use Rattle.std.specs.Prelude.{◌≡◌, ◌<◌, length};
ghost use Rattle.parsimony.specs.Table.{SizeRules};
ghost use Rattle.parsimony.specs.Tells.{Tells};
ghost use Rattle.promises.specs.Input.{input_of, node_in, nodes};
ghost use Rattle.tree_nodes.specs.NodeOf.{node_of, TipCounts};

use parsimony::{MOST_NODES, NO_CHILD};
use promises::Table;

// What the table says of a node: a tip with the number of its row, or an inner node with its children.
#[derive(Clone, Copy)]
pub enum Node {
    Symbol(usize),
    Handed(usize),
    Inner(usize, usize),
}

// The right entry of the tip that has handed row 0.
const FIRST_HANDED: u16 = 32768;

// How many of a table's nodes are symbol tips, and how many handed tips.
#[derive(Clone, Copy)]
pub struct Tips {
    pub symbol: usize,
    pub handed: usize,
}

// The two lists have one length, odd and at most 1,023.
pub fn size_fits(table: &Table) -> bool
    ensures { Tells (SizeRules table.now.left.now table.now.right.now) result }
{
    let n = table.left.len();
    n == table.right.len() && n % 2 == 1 && n <= MOST_NODES
}

// Node v of the table.
pub fn node_at(table: &Table, v: usize) -> Node
    requires { (v < length table.now.left.now) × (v < length table.now.right.now) }
    ensures { node_of result ≡ node_in (input_of table.now) v }
{
    // The right entry is read in each branch: read before them, the branches become selects, and a test of the kind
    // that follows is made a second time.
    if table.left[v] != NO_CHILD {
        return Node::Inner(usize::from(table.left[v]), usize::from(table.right[v]));
    }
    if table.right[v] < FIRST_HANDED {
        return Node::Symbol(usize::from(table.right[v]));
    }
    Node::Handed(usize::from(table.right[v] - FIRST_HANDED))
}

// How many nodes are tips, of either kind. The turns have no branch: a loop of them can work on many nodes at once.
pub fn tips_of(table: &Table) -> Tips
    requires { SizeRules table.now.left.now table.now.right.now }
    ensures { TipCounts (nodes (input_of table.now)) (node_in (input_of table.now)) result.symbol result.handed }
{
    let mut symbol = 0u16;
    let mut handed = 0u16;
    for v in 0..table.left.len() {
        let tip = table.left[v] == NO_CHILD;
        let low = table.right[v] < FIRST_HANDED;
        symbol += u16::from(tip & low);
        handed += u16::from(tip & !low);
    }
    Tips {
        symbol: usize::from(symbol),
        handed: usize::from(handed),
    }
}
