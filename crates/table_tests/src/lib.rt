// The tests 1 to 5, in their order: what every call asks of its table.
#![tactic(auto)]

ghost use Rattle.std.specs.Prelude.{List, ℕ};
ghost use Rattle.promises.specs.CallRules.{table_rules};
ghost use Rattle.promises.specs.Input.{input_of};
ghost use Rattle.table_tests.specs.Tested.{MatrixTests, Tests};

use promises::{Refusal, Sound, Table};
use table_entries::cells::cells_fit;
use table_entries::costs::costs_fit;
use table_handed::handed_fit;
use tree_nodes::nodes::size_fits;
use tree_test::check_tree;

// SIZE, SHAPE, COSTS and CELLS, whatever the handed entries are: the number of handed tips.
pub fn matrix_tests(table: &Table) -> Result<usize, Refusal>
    ensures own { MatrixTests (input_of table.now) result }
    ensures others { (entries : List ℕ) → MatrixTests (record (input_of table.now) { handed = entries }) result }
{
    if !size_fits(table) {
        return Err(Refusal::Size);
    }
    let tips = match check_tree(table) {
        Ok(tips) => tips,
        Err(v) => return Err(Refusal::Shape(v)),
    };
    if !costs_fit(table.s, table.costs) {
        return Err(Refusal::Costs);
    }
    if !cells_fit(table.s, tips.symbol, table.c, table.cells) {
        return Err(Refusal::Cells);
    }
    Ok(tips.handed)
}

// SIZE to ROWS.
pub fn table_tests<'a>(table: &Table<'a>) -> Result<Sound<'a>, Refusal>
    ensures { Tests (table_rules (input_of table.now)) (input_of table.now) result }
{
    let handed_tips = matrix_tests(table)?;
    if !handed_fit(table.s, table.c, handed_tips, table.handed) {
        return Err(Refusal::Rows);
    }
    Ok(Sound {
        table: *table,
        handed_tips,
    })
}
