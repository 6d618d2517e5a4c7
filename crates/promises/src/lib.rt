// What the table calls promise: definitions (specs/) and theorems (proofs/). This crate has no functions; it has the
// types of the table that a call is given and of the refusals.
#![tactic(auto)]

mod sound;
mod table;

pub use sound::Sound;
pub use table::Table;

// The refusals of the table calls, in the order of their numbers.
#[derive(Clone, Copy)]
pub enum Refusal {
    // 1: the two lists differ in length, or n is even or over 1,023.
    Size,
    // 2: a node breaks a tree rule; the lowest such node.
    Shape(usize),
    // 3: the costs.
    Costs,
    // 4: the cells.
    Cells,
    // 5: the handed rows.
    Rows,
    // 6: the column or the start.
    Which,
    // 7: set counting with other than unit costs, or with handed tips.
    NotUnit,
    // 8: an output or the row room is too short.
    Room,
}
