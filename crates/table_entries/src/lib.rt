// The tests of a table's costs and cells. Each decides a rule of `parsimony`.
#![tactic(auto)]

pub mod cells;
pub mod costs;
mod ranges;
