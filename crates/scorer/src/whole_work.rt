// The whole work on one column: its score, its labels and its sets.
ghost use Rattle.promises.specs.Input.{input_of};
ghost use Rattle.promises.specs.Promises.{ColumnWorked};

use call_tests::work_tests;
use column_work::fill_column;
use parsimony::Cell;
use promises::{Refusal, Table};

// The whole work on one column: the score, and the state and the set of each node, from no start.
pub fn work_column(
    table: &Table,
    j: usize,
    states: &mut [u8],
    sets: &mut [Cell],
    rows: &mut [u32],
) -> Result<usize, Refusal>
    ensures { ColumnWorked (input_of table.now) j states.old sets.old rows.old result
        states.new sets.new rows.new }
{
    let sound = work_tests(table, j, states.len(), sets.len(), rows.len())?;
    Ok(fill_column(&sound, j, states, sets, rows) as usize)
}
