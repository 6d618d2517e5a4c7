// Marks: what a walk from the root down gives each node, a state or a set of states.
ghost use Rattle.std.specs.Prelude.{List, ◌≡◌, ℕ, ◌<◌, ◌≤◌, length};
ghost use Rattle.parsimony.specs.Column.{cost_at};
ghost use Rattle.parsimony.specs.Least.{low};
ghost use Rattle.parsimony.specs.Limits.{most_states};
ghost use Rattle.parsimony.specs.Written.{entries};
ghost use Rattle.row_step.specs.Lane.{Calm};
ghost use Rattle.choice_steps.specs.Ties.{least_set};
ghost use Rattle.parsimony.specs.Tells.{Tells};
ghost use Rattle.promises.specs.CallWrites.{StatesOf, SetsOf};
ghost use Rattle.promises.specs.Input.{Input, Start, input_of};
ghost use Rattle.promises.specs.Starts.{StateStart, SetStart};
ghost use Rattle.choice_steps.specs.Marks.{Passing, chosen, settled, IsState, IsCell, MarkLaws};
ghost use Rattle.choice_steps.proofs.MarkKinds.{state_laws, set_laws};

use call_starts::{set_start, state_start};
use choice_steps::{child_set, choose, least_set, lowest_least};
use parsimony::Cell;
use promises::Sound;
use row_step::Costs;

pub trait Mark: Copy {
    // The number that the mark is.
    ghost number: { Self → ℕ };

    // It may stand at a node, where there are so many states.
    ghost Fits: { ℕ → ℕ → Type 0 };

    // What the root takes where it is free, by its row.
    ghost free_of: { (ℕ → ℕ) → ℕ → ℕ };

    // What a child gets under its parent, by its row.
    ghost passed: { Passing };

    // What may be given as start for a column.
    ghost May: { Input → ℕ → Start → Type 0 };

    // What the marks of a column are, from a start.
    ghost Output: { Input → ℕ → Start → List ℕ → List ℕ → Type 0 };

    // What each kind of mark must prove.
    ghost laws: { MarkLaws Fits free_of passed May Output };

    // Whether the start may be given for column j.
    fn may_start(sound: &Sound, j: usize, start: Option<usize>) -> bool
        requires { j < sound.now.table.c }
        ensures { Tells (May (input_of sound.now.table) j start) result };

    // The root's mark where it is free.
    fn free(row: &[u32]) -> Self
        requires { (0 < length row.now) × (length row.now ≤ most_states) }
        ensures { number result ≡ free_of (entries row.now) (length row.now) };

    // The mark that a number is.
    fn given(x: usize) -> Self
        requires { Fits most_states x }
        ensures { number result ≡ x };

    // The mark of a child with this row under a parent with this mark.
    fn pass(self, costs: &Costs, row: &[u32]) -> Self
        requires states { length row.now ≡ costs.now.s }
        requires calm { Calm row.now }
        requires fits { Fits costs.now.s (number self) }
        ensures { number result ≡ passed costs.now.s (cost_at costs.now.s costs.now.list.now) (entries row.now)
            (number self) };
}

// States: the lowest least, and each child by the choosing step.
impl Mark for u8 {
    ghost number = { λ x. x };

    ghost Fits = { IsState };

    ghost free_of = { low };

    ghost passed = { chosen };

    ghost May = { StateStart };

    ghost Output = { StatesOf };

    ghost laws = { state_laws };

    fn may_start(sound: &Sound, j: usize, start: Option<usize>) -> bool {
        state_start(sound, j, start)
    }

    fn free(row: &[u32]) -> u8 {
        lowest_least(row) as u8
    }

    fn given(x: usize) -> u8 {
        x as u8
    }

    fn pass(self, costs: &Costs, row: &[u32]) -> u8 {
        choose(costs, usize::from(self), row) as u8
    }
}

// Sets of states: all the least, and each child by the set step.
impl Mark for Cell {
    ghost number = { λ w. w };

    ghost Fits = { IsCell };

    ghost free_of = { least_set };

    ghost passed = { settled };

    ghost May = { SetStart };

    ghost Output = { SetsOf };

    ghost laws = { set_laws };

    fn may_start(sound: &Sound, j: usize, start: Option<usize>) -> bool {
        set_start(sound, j, start)
    }

    fn free(row: &[u32]) -> Cell {
        least_set(row)
    }

    fn given(x: usize) -> Cell {
        x as Cell
    }

    fn pass(self, costs: &Costs, row: &[u32]) -> Cell {
        child_set(costs, row, self)
    }
}
