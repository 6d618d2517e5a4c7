// What scoring means: definitions (specs/) and theorems (proofs/). This crate has no functions; it has the type of a
// cell, and the paper's numbers that the code of several crates needs.
#![tactic(auto)]

// A cell of the matrix, or any other set of states: bit x stands for state x.
pub type Cell = u16;

// How many states a table may have.
pub const MOST_STATES: usize = 16;

// How many nodes a table may have.
pub const MOST_NODES: usize = 1023;

// How many columns a table may have.
pub const MOST_COLUMNS: usize = 65535;

// What a change may cost.
pub const MOST_COST: u16 = 999;

// The left entry of a tip.
pub const NO_CHILD: u16 = 65535;

// The entry that stands for "not allowed".
pub const BARRED: u32 = 4294967295;
