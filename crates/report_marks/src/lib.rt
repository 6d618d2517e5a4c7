// What a report tells of a column beside its score: the quiet mark, the one-state count and the labels as letters.
#![tactic(auto)]

pub mod letters;
pub mod ones;
pub mod quiet;
