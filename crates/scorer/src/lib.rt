// The table calls: scoring, labelling, the set call, handing up, the whole work on a column, and counting by sets.
#![tactic(auto)]

mod counting;
mod handing_up;
mod marking;
mod scoring;
mod whole_work;

pub use counting::count;
pub use handing_up::hand_up;
pub use marking::{label, sets};
pub use scoring::score;
pub use whole_work::work_column;
