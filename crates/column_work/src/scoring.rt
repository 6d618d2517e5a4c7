// The scores of all columns, and the last column's rows in the row room.
ghost use Rattle.std.specs.Prelude.{◌*◌, ◌<◌, ◌≤◌, length};
ghost use Rattle.parsimony.specs.Labelling.{IsScore};
ghost use Rattle.promises.specs.CallRules.{Fits};
ghost use Rattle.promises.specs.CallWrites.{ScoresWritten};
ghost use Rattle.promises.specs.Input.{input_of, nodes, column};
ghost use Rattle.promises.specs.RowRoom.{Worked};

use promises::Sound;
use root_row::root_least;
use rows_up::fill_rows;

// The score of column j; its rows are left in the row room.
fn score_column(sound: &Sound, j: usize, rows: &mut [u32]) -> u32
    requires inside { j < sound.now.table.c }
    requires room { nodes (input_of sound.now.table) * sound.now.table.s ≤ length rows.old }
    ensures score { IsScore (column (input_of sound.now.table) j) result }
    ensures worked { Worked (input_of sound.now.table) j rows.old rows.new }
{
    fill_rows(sound, j, rows);
    root_least(rows, sound.table.left.len(), sound.table.s)
}

// The scores of all columns.
pub fn score_columns(sound: &Sound, scores: &mut [u32], rows: &mut [u32])
    requires { Fits (input_of sound.now.table) sound.now.table.c (length scores.old) (length rows.old) }
    ensures { ScoresWritten (input_of sound.now.table) scores.old rows.old scores.new rows.new }
{
    for j in 0..sound.table.c {
        scores[j] = score_column(sound, j, rows);
    }
}
