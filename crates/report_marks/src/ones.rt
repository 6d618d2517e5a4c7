// The number of nodes whose set has one state.
ghost use Rattle.std.specs.Prelude.{◌≡◌, ℕ, length, get_or};
ghost use Rattle.parsimony.specs.Limits.{cell_bits};
ghost use Rattle.report_marks.specs.OneState.{one_states};

use parsimony::Cell;
use states::States;

// How many of the sets have one state.
pub fn one_states(sets: &[Cell]) -> usize
    ensures { result ≡ one_states cell_bits (λ (v : ℕ). get_or sets.now v 0) (length sets.now) }
{
    // A filter and its count branch at each set, and the whole report is then a sixth slower.
    let mut count = 0;
    for set in sets {
        count += usize::from(States(*set).count() == 1);
    }
    count
}
