// The nodes of a column: what a table that keeps its rules says of each.
#![tactic(auto)]

ghost use Rattle.std.specs.Prelude.{◌<◌};
ghost use Rattle.promises.specs.Input.{input_of, nodes};
ghost use Rattle.column_nodes.specs.Said.{Says};

use parsimony::Cell;
use promises::Sound;
use tree_nodes::nodes::{Node, node_at};

// What a node is in a column: a symbol tip with its cell, a handed tip with its row, or an inner node with its
// children.
#[derive(Clone, Copy)]
pub enum ColumnNode<'a> {
    Symbol(Cell),
    Handed(&'a [u32]),
    Inner(usize, usize),
}

// Node v in column j.
pub fn column_node<'a>(sound: &Sound<'a>, j: usize, v: usize) -> ColumnNode<'a>
    requires { (j < sound.now.table.c) × (v < nodes (input_of sound.now.table)) }
    ensures { Says (input_of sound.now.table) j v result }
{
    let table = &sound.table;
    match node_at(table, v) {
        Node::Symbol(r) => ColumnNode::Symbol(table.cells[r * table.c + j]),
        Node::Handed(k) => {
            let at = (j * sound.handed_tips + k) * table.s;
            ColumnNode::Handed(&table.handed[at..at + table.s])
        }
        Node::Inner(a, b) => ColumnNode::Inner(a, b),
    }
}
