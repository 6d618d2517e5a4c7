// Counting by sets in one column.
ghost use Rattle.promises.specs.Input.{input_of, unhanded};
ghost use Rattle.promises.specs.Promises.{CountedBySets};

use call_tests::count_tests;
use counts_up::fill_prelims;
use parsimony::Cell;
use promises::{Refusal, Table};

// Counting by sets: the preliminary set of each node in one column, and the number of changes. The table's handed rows
// are not read.
pub fn count(table: &Table, j: usize, sets: &mut [Cell]) -> Result<usize, Refusal>
    ensures { CountedBySets (unhanded (input_of table.now)) j sets.old result sets.new }
{
    let sound = count_tests(table, j, sets.len())?;
    Ok(fill_prelims(&sound.table, j, sets))
}
