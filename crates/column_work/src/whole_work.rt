// All that a report needs of one column: its score, its labels and its sets.
ghost use Rattle.std.specs.Prelude.{◌<◌, length};
ghost use Rattle.promises.specs.CallRules.{FitsWork};
ghost use Rattle.promises.specs.CallWrites.{WorkWritten};
ghost use Rattle.promises.specs.Input.{input_of};

use parsimony::Cell;
use promises::Sound;
use root_row::{marks_down, root_least};
use rows_up::{fill_rows, rows_in};

// The rows, the labels and the sets of column j, and its score.
pub fn fill_column(
    sound: &Sound,
    j: usize,
    states: &mut [u8],
    sets: &mut [Cell],
    rows: &mut [u32],
) -> u32
    requires inside { j < sound.now.table.c }
    requires room { FitsWork (input_of sound.now.table) (length states.old) (length sets.old) (length rows.old) }
    ensures { WorkWritten (input_of sound.now.table) j states.old sets.old rows.old result
        states.new sets.new rows.new }
{
    fill_rows(sound, j, rows);
    let worked = rows_in(sound, j, rows);
    marks_down(&worked, None, states);
    marks_down(&worked, None, sets);
    root_least(rows, sound.table.left.len(), sound.table.s)
}
