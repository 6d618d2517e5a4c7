// The tests 1 to 8 of each call, in their order: the first that holds is given.
#![tactic(auto)]

ghost use Rattle.std.specs.Prelude.{◌*◌, ◌≤◌};
ghost use Rattle.parsimony.specs.Tells.{Tells};
ghost use Rattle.promises.specs.CallRules.{
  score_rules,
  started_rules,
  hand_up_rules,
  work_rules,
  count_rules,
};
ghost use Rattle.promises.specs.Input.{input_of, unhanded, nodes};
ghost use Rattle.table_tests.specs.Tested.{Tests};

use promises::{Refusal, Sound, Table};
use table_entries::costs::unit_costs;
use table_tests::{matrix_tests, table_tests};
use walk_down::Mark;

// An output has room for what is needed, and the row room for all rows.
fn room_fits(sound: &Sound, needed: usize, output: usize, rows: usize) -> bool
    ensures { Tells ((needed ≤ output) × (nodes (input_of sound.now.table) * sound.now.table.s ≤ rows)) result }
{
    needed <= output && sound.table.left.len() * sound.table.s <= rows
}

// The tests of scoring, with room for so many scores and row entries.
pub fn score_tests<'a>(table: &Table<'a>, scores: usize, rows: usize) -> Result<Sound<'a>, Refusal>
    ensures { Tests (score_rules (input_of table.now) scores rows) (input_of table.now) result }
{
    let sound = table_tests(table)?;
    if !room_fits(&sound, table.c, scores, rows) {
        return Err(Refusal::Room);
    }
    Ok(sound)
}

// The tests of marking column j from a start, with room for so many marks and row entries.
pub fn mark_tests<'a, M: Mark>(
    table: &Table<'a>,
    j: usize,
    start: Option<usize>,
    marks: usize,
    rows: usize,
) -> Result<Sound<'a>, Refusal>
    ensures { Tests (started_rules M.May (input_of table.now) j start marks rows) (input_of table.now) result }
{
    let sound = table_tests(table)?;
    if table.c <= j {
        return Err(Refusal::Which);
    }
    if !M::may_start(&sound, j, start) {
        return Err(Refusal::Which);
    }
    if !room_fits(&sound, table.left.len(), marks, rows) {
        return Err(Refusal::Room);
    }
    Ok(sound)
}

// The tests of handing up column j, with room for so many entries and row entries.
pub fn hand_up_tests<'a>(
    table: &Table<'a>,
    j: usize,
    row: usize,
    rows: usize,
) -> Result<Sound<'a>, Refusal>
    ensures { Tests (hand_up_rules (input_of table.now) j row rows) (input_of table.now) result }
{
    let sound = table_tests(table)?;
    if table.c <= j {
        return Err(Refusal::Which);
    }
    if !room_fits(&sound, table.s, row, rows) {
        return Err(Refusal::Room);
    }
    Ok(sound)
}

// The tests of the whole work on column j, with room for so many states, sets and row entries.
pub fn work_tests<'a>(
    table: &Table<'a>,
    j: usize,
    states: usize,
    sets: usize,
    rows: usize,
) -> Result<Sound<'a>, Refusal>
    ensures { Tests (work_rules (input_of table.now) j states sets rows) (input_of table.now) result }
{
    let sound = table_tests(table)?;
    if table.c <= j {
        return Err(Refusal::Which);
    }
    if states < table.left.len() {
        return Err(Refusal::Room);
    }
    if !room_fits(&sound, table.left.len(), sets, rows) {
        return Err(Refusal::Room);
    }
    Ok(sound)
}

// The tests of counting column j by sets, with room for so many sets. No handed rows are tested: the table that has
// passed has none.
pub fn count_tests<'a>(table: &Table<'a>, j: usize, sets: usize) -> Result<Sound<'a>, Refusal>
    ensures { Tests (count_rules (unhanded (input_of table.now)) j sets) (unhanded (input_of table.now)) result }
{
    let table = Table {
        handed: &[],
        ..*table
    };
    let handed_tips = matrix_tests(&table)?;
    if table.c <= j {
        return Err(Refusal::Which);
    }
    if !unit_costs(table.s, table.costs) {
        return Err(Refusal::NotUnit);
    }
    if handed_tips != 0 {
        return Err(Refusal::NotUnit);
    }
    if sets < table.left.len() {
        return Err(Refusal::Room);
    }
    Ok(Sound { table, handed_tips })
}
