// Marking: the state or the set of each node in one column.
ghost use Rattle.std.specs.Prelude.{length, map};
ghost use Rattle.promises.specs.CallRules.{started_rules};
ghost use Rattle.promises.specs.Input.{input_of};
ghost use Rattle.promises.specs.Promises.{ColumnCalled, Labelled, SetsFound};

use call_tests::mark_tests;
use column_work::mark_column;
use parsimony::Cell;
use promises::{Refusal, Table};
use walk_down::Mark;

// Marks of either kind, from a start.
fn mark<M: Mark>(
    table: &Table,
    j: usize,
    start: Option<usize>,
    marks: &mut [M],
    rows: &mut [u32],
) -> Result<(), Refusal>
    ensures { let I = input_of table.now in
        ColumnCalled (started_rules M.May I j start) I j (M.Output I j start)
        (map M.number marks.old) rows.old result (map M.number marks.new) rows.new }
{
    let sound = mark_tests::<M>(table, j, start, marks.len(), rows.len())?;
    mark_column(&sound, j, start, marks, rows);
    Ok(())
}

// Labelling: the state of each node in one column, from a start.
pub fn label(
    table: &Table,
    j: usize,
    start: Option<usize>,
    states: &mut [u8],
    rows: &mut [u32],
) -> Result<(), Refusal>
    ensures { Labelled (input_of table.now) j start states.old rows.old result states.new rows.new }
{
    mark(table, j, start, states, rows)
}

// The set call: the set of each node in one column, from a start set.
pub fn sets(
    table: &Table,
    j: usize,
    start: Option<usize>,
    sets: &mut [Cell],
    rows: &mut [u32],
) -> Result<(), Refusal>
    ensures { SetsFound (input_of table.now) j start sets.old rows.old result sets.new rows.new }
{
    mark(table, j, start, sets, rows)
}
