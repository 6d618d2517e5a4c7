// Sets of states as the bits of a cell: bit x stands for state x.
#![tactic(auto)]

ghost use Rattle.std.specs.Prelude.{◌≡◌, ◌^◌, ◌<◌};
ghost use Rattle.parsimony.specs.Limits.{most_states, cell_bits};
ghost use Rattle.parsimony.specs.StateSet.{Member, Lowest, one, union, common, size};
ghost use Rattle.parsimony.specs.Tells.{Tells};

use parsimony::Cell;

// A set of states.
#[derive(Clone, Copy)]
pub struct States(pub Cell);

impl States {
    // The empty set.
    pub const NONE: States = States(0);
    // All four bases.
    pub const BASES: States = States(15);

    // The set of state x alone.
    pub fn one(x: usize) -> States
        requires { x < most_states }
        ensures { result.0 ≡ one x }
    {
        States(1 << x)
    }

    // The states of either set.
    pub fn union(self, other: States) -> States
        ensures { result.0 ≡ union self.0 other.0 }
    {
        States(self.0 | other.0)
    }

    // The states of both sets.
    pub fn common(self, other: States) -> States
        ensures { result.0 ≡ common self.0 other.0 }
    {
        States(self.0 & other.0)
    }

    // How many states the set has.
    pub fn count(self) -> u32
        ensures { result ≡ size cell_bits self.0 }
    {
        u16::count_ones(self.0)
    }

    // The lowest state of a set that is not empty.
    pub fn lowest(self) -> u32
        requires { 0 < self.0 }
        ensures { Lowest self.0 result }
    {
        u16::trailing_zeros(self.0)
    }

    // State x is in the set.
    pub fn has(self, x: usize) -> bool
        requires { x < most_states }
        ensures { Tells (Member self.0 x) result }
    {
        self.0 >> x & 1 == 1
    }
}
