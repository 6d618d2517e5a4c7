// Handing up: the root's row in one column.
ghost use Rattle.promises.specs.Input.{input_of};
ghost use Rattle.promises.specs.Promises.{HandedUp};

use call_tests::hand_up_tests;
use column_work::row_column;
use promises::{Refusal, Table};

// Handing up: the root's row in one column.
pub fn hand_up(table: &Table, j: usize, row: &mut [u32], rows: &mut [u32]) -> Result<(), Refusal>
    ensures { HandedUp (input_of table.now) j row.old rows.old result row.new rows.new }
{
    let sound = hand_up_tests(table, j, row.len(), rows.len())?;
    row_column(&sound, j, row, rows);
    Ok(())
}
