// Tree tables: the test of the size, the nodes, and how many of them are tips.
#![tactic(auto)]

pub mod nodes;
