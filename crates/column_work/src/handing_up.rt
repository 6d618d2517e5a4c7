// The root's row of one column.
ghost use Rattle.std.specs.Prelude.{◌<◌, length};
ghost use Rattle.promises.specs.CallRules.{Fits};
ghost use Rattle.promises.specs.CallWrites.{RowWritten};
ghost use Rattle.promises.specs.Input.{input_of};

use promises::Sound;
use row_step::copy_row;
use rows_up::{fill_rows, rows_in};

// The root's row of column j.
pub fn row_column(sound: &Sound, j: usize, row: &mut [u32], rows: &mut [u32])
    requires inside { j < sound.now.table.c }
    requires room { Fits (input_of sound.now.table) sound.now.table.s (length row.old) (length rows.old) }
    ensures { RowWritten (input_of sound.now.table) j row.old rows.old row.new rows.new }
{
    fill_rows(sound, j, rows);
    let worked = rows_in(sound, j, rows);
    copy_row(
        worked.row(sound.table.left.len() - 1),
        &mut row[..sound.table.s],
    );
}
