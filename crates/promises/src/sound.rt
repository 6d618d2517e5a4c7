// A table that has passed its tests.
ghost use Rattle.std.specs.Prelude.{◌≡◌};
ghost use Rattle.parsimony.specs.Table.{handed};
ghost use Rattle.promises.specs.CallRules.{Allowed};
ghost use Rattle.promises.specs.Input.{input_of, tips_in};

use crate::table::Table;

// A table that keeps the rules 1 to 5, and the number of its handed tips.
#[derive(Clone, Copy)]
pub struct Sound<'a> {
    pub table: Table<'a>,
    pub handed_tips: usize,
    ghost allowed: { ∥ Allowed (input_of table) ∥₁ },
    ghost tips: { handed_tips ≡ tips_in handed (input_of table) },
}
