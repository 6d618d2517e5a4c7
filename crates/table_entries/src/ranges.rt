// Whether the numbers of a list are in a range.
ghost use Rattle.std.specs.Prelude.{ℕ, ◌<◌, ◌≤◌, length, get_or};
ghost use Rattle.parsimony.specs.Tells.{Tells};

// Every number of the list is least to most. The loop has no way out but its end: it can work on many numbers at once.
pub(crate) fn all_within(list: &[u16], least: u16, most: u16) -> bool
    ensures { Tells
        ((i : ℕ) → i < length list.now
        → (least ≤ get_or list.now i 0) × (get_or list.now i 0 ≤ most))
        result }
{
    let mut lowest = u16::MAX;
    let mut highest = u16::MIN;
    for &e in list {
        lowest = lowest.min(e);
        highest = highest.max(e);
    }
    least <= lowest && highest <= most
}
