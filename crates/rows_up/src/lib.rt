// From the tips up: the rows of a column.
#![tactic(auto)]

ghost use Rattle.std.specs.Prelude.{◌≡◌, ◌*◌, ◌<◌, ◌≤◌, length};
ghost use Rattle.parsimony.specs.Row.{row};
ghost use Rattle.parsimony.specs.Written.{entries};
ghost use Rattle.promises.specs.Input.{input_of, nodes, column};
ghost use Rattle.promises.specs.RowRoom.{HoldsRows, Worked};
ghost use Rattle.row_step.specs.Lane.{RowIs};

use column_nodes::{ColumnNode, column_node};
use promises::Sound;
use row_step::{Rows, cell_row, copy_row, costs_of, inner_row, row_at};

// Node v's row in column j, from the rows of the nodes below v.
fn node_row(sound: &Sound, j: usize, v: usize, below: &[u32], own: &mut [u32])
    requires node { (j < sound.now.table.c) × (v < nodes (input_of sound.now.table)) }
    requires room { (length below.now ≡ v * sound.now.table.s) × (length own.old ≡ sound.now.table.s) }
    requires holds_rows { HoldsRows (row (column (input_of sound.now.table) j)) v sound.now.table.s (entries below.now) }
    ensures { RowIs (row (column (input_of sound.now.table) j) v) own.new }
{
    let s = sound.table.s;
    match column_node(sound, j, v) {
        ColumnNode::Symbol(cell) => cell_row(cell, own),
        ColumnNode::Handed(handed) => copy_row(handed, own),
        ColumnNode::Inner(a, b) => {
            let costs = costs_of(&sound.table);
            inner_row(&costs, row_at(below, s, a), row_at(below, s, b), own)
        }
    }
}

// Each node's row in column j, node by node.
pub fn fill_rows(sound: &Sound, j: usize, rows: &mut [u32])
    requires inside { j < sound.now.table.c }
    requires room { nodes (input_of sound.now.table) * sound.now.table.s ≤ length rows.old }
    ensures { Worked (input_of sound.now.table) j rows.old rows.new }
{
    let s = sound.table.s;
    for v in 0..sound.table.left.len() {
        let (below, rest) = rows.split_at_mut(v * s);
        node_row(sound, j, v, below, &mut rest[..s]);
    }
}

// The rows of column j, where they stand in the room.
pub fn rows_in<'t, 'r>(sound: &Sound<'t>, j: usize, rows: &'r [u32]) -> Rows<'t, 'r>
    requires inside { j < sound.now.table.c }
    requires room { nodes (input_of sound.now.table) * sound.now.table.s ≤ length rows.now }
    requires holds_rows { HoldsRows (row (column (input_of sound.now.table) j)) (nodes (input_of sound.now.table))
        sound.now.table.s (entries rows.now) }
    ensures { (result.table ≡ sound.now.table) × (result.entries.now ≡ rows.now) }
{
    Rows {
        table: sound.table,
        entries: rows,
    }
}
