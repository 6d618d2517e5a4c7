// The quiet mark of a column.
ghost use Rattle.std.specs.Prelude.{◌≡◌};
ghost use Rattle.report_marks.specs.Quiet.{tally, quiet_mark};

use parsimony::Cell;

// The sets of one base alone: A, C, G and T.
const PLAIN: [Cell; 4] = [1, 2, 4, 8];

// How many of the cells are the set.
fn count_cells(cells: &[Cell], set: Cell) -> usize
    ensures { result ≡ tally set cells.now }
{
    // A filter and its count branch at each cell, and the whole report is then a sixth slower.
    let mut count = 0;
    for cell in cells {
        count += usize::from(*cell == set);
    }
    count
}

// 1 where fewer than two of the four bases each occur at two or more tips as plain ones, else 0.
pub fn quiet_mark(cells: &[Cell]) -> usize
    ensures { result ≡ quiet_mark cells.now }
{
    // Here too a filter and its count would branch at each base.
    let mut bases = 0;
    for base in PLAIN {
        bases += usize::from(2 <= count_cells(cells, base));
    }
    usize::from(bases < 2)
}
