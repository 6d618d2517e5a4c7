// The rules of cells.
ghost use Rattle.std.specs.Prelude.{◌≡◌, ◌+◌, ◌^◌, ◌≤◌};
ghost use Rattle.parsimony.specs.Allowed.{CellRules};
ghost use Rattle.parsimony.specs.Limits.{most_states};
ghost use Rattle.parsimony.specs.Tells.{Tells};

use crate::ranges::all_within;
use parsimony::{Cell, MOST_COLUMNS};

// At most 65,535 columns, a cell for each of t rows and c columns, none empty, none with a bit at s or above.
pub fn cells_fit(s: usize, t: usize, c: usize, cells: &[Cell]) -> bool
    requires { (s ≤ most_states) × (t ≤ 1023) }
    ensures { Tells (CellRules s t c cells.now) result }
{
    c <= MOST_COLUMNS && cells.len() == t * c && all_within(cells, 1, last_set(s))
}

// The last set of states below s: bits 0 to s-1.
fn last_set(s: usize) -> Cell
    requires { s ≤ most_states }
    ensures { result + 1 ≡ 2 ^ s }
{
    ((1usize << s) - 1) as Cell
}
