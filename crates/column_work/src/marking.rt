// The marks of one column: its labels or its sets.
ghost use Rattle.std.specs.Prelude.{length, map};
ghost use Rattle.promises.specs.CallRules.{ColumnAsked, Fits};
ghost use Rattle.promises.specs.CallWrites.{ColumnWritten};
ghost use Rattle.promises.specs.Input.{input_of, nodes};

use promises::Sound;
use root_row::marks_down;
use rows_up::{fill_rows, rows_in};
use walk_down::Mark;

// The marks of column j, from the root down.
pub fn mark_column<M: Mark>(
    sound: &Sound,
    j: usize,
    start: Option<usize>,
    marks: &mut [M],
    rows: &mut [u32],
)
    requires asked { ColumnAsked M.May (input_of sound.now.table) j start }
    requires room { let I = input_of sound.now.table in Fits I (nodes I) (length marks.old) (length rows.old) }
    ensures { let I = input_of sound.now.table in
        ColumnWritten I j (M.Output I j start) (map M.number marks.old) rows.old (map M.number marks.new) rows.new }
{
    fill_rows(sound, j, rows);
    let worked = rows_in(sound, j, rows);
    marks_down(&worked, start, marks);
}
