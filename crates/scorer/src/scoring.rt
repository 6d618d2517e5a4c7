// Scoring: the score of each column, and the last column's rows in the row room.
ghost use Rattle.promises.specs.Input.{input_of};
ghost use Rattle.promises.specs.Promises.{Scored};

use call_tests::score_tests;
use column_work::score_columns;
use promises::{Refusal, Table};

// Scoring: the score of each column.
pub fn score(table: &Table, scores: &mut [u32], rows: &mut [u32]) -> Result<(), Refusal>
    ensures { Scored (input_of table.now) scores.old rows.old result scores.new rows.new }
{
    let sound = score_tests(table, scores.len(), rows.len())?;
    score_columns(&sound, scores, rows);
    Ok(())
}
