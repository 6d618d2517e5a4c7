// The lines of the report: a column's, the number of columns, the total, and the line of a refused sheet.
#![tactic(auto)]

pub mod column;
pub mod frame;
