// The starts: none, or a state or a set of states that the root may take.
#![tactic(auto)]

ghost use Rattle.std.specs.Prelude.{ℕ, ◌^◌, ◌<◌};
ghost use Rattle.parsimony.specs.StateSet.{Member};
ghost use Rattle.parsimony.specs.Tells.{Tells};
ghost use Rattle.promises.specs.Input.{input_of};
ghost use Rattle.promises.specs.Starts.{OpenRoot, StateStart, SetStart};

use column_nodes::{ColumnNode, column_node};
use parsimony::{BARRED, Cell};
use promises::Sound;
use states::States;

// State x is not barred at the root in column j.
fn root_open(sound: &Sound, j: usize, x: usize) -> bool
    requires { (j < sound.now.table.c) × (x < sound.now.table.s) }
    ensures { Tells (OpenRoot (input_of sound.now.table) j x) result }
{
    match column_node(sound, j, sound.table.left.len() - 1) {
        ColumnNode::Symbol(cell) => States(cell).has(x),
        ColumnNode::Handed(row) => row[x] != BARRED,
        ColumnNode::Inner(_, _) => true,
    }
}

// No start, or a state below s that is not barred at the root in column j.
pub fn state_start(sound: &Sound, j: usize, start: Option<usize>) -> bool
    requires { j < sound.now.table.c }
    ensures { Tells (StateStart (input_of sound.now.table) j start) result }
{
    match start {
        None => true,
        Some(x) => x < sound.table.s && root_open(sound, j, x),
    }
}

// Every member of a set of states below s is not barred at the root in column j.
fn members_open(sound: &Sound, j: usize, set: Cell) -> bool
    requires { (j < sound.now.table.c) × (set < 2 ^ sound.now.table.s) }
    ensures { Tells ((x : ℕ) → Member set x → OpenRoot (input_of sound.now.table) j x) result }
{
    for x in 0..sound.table.s {
        if States(set).has(x) && !root_open(sound, j, x) {
            return false;
        }
    }
    true
}

// No start, or a nonempty set of states below s, none of them barred at the root in column j.
pub fn set_start(sound: &Sound, j: usize, start: Option<usize>) -> bool
    requires { j < sound.now.table.c }
    ensures { Tells (SetStart (input_of sound.now.table) j start) result }
{
    match start {
        None => true,
        Some(0) => false,
        Some(set) if set < 1 << sound.table.s => members_open(sound, j, set as Cell),
        Some(_) => false,
    }
}
