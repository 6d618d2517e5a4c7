// The work on a table that has passed its tests: scores, labels, sets, the root's row, and the whole of a column.
#![tactic(auto)]

mod handing_up;
mod marking;
mod scoring;
mod whole_work;

pub use handing_up::row_column;
pub use marking::mark_column;
pub use scoring::score_columns;
pub use whole_work::fill_column;
