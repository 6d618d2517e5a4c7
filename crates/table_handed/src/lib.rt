// The test ROWS: whether the handed rows keep their rules.
#![tactic(auto)]

ghost use Rattle.std.specs.Prelude.{◌⊎◌, ◌≡◌, ℕ, ◌+◌, ◌*◌, ◌<◌, ◌≤◌, length, get_or};
ghost use Rattle.parsimony.specs.Allowed.{HandedRules, most_handed};
ghost use Rattle.parsimony.specs.Barred.{barred};
ghost use Rattle.parsimony.specs.Limits.{most_states};
ghost use Rattle.parsimony.specs.Tells.{Tells};

use parsimony::BARRED;

// The largest handed entry that is not barred.
const MOST_HANDED: u32 = 1020978;

// An entry for each of c columns, h rows and s states, each at most 1,020,978 or barred, and no row wholly barred.
pub fn handed_fit(s: usize, c: usize, h: usize, entries: &[u32]) -> bool
    requires { (1 ≤ s) × (s ≤ most_states) × (c ≤ 65535) × (h ≤ 1023) }
    ensures { Tells (HandedRules s c h entries.now) result }
{
    let rows = c * h;
    entries.len() == rows * s && all_handed(entries) && rows_open(entries, rows, s)
}

// Every entry is at most 1,020,978 or barred.
fn all_handed(entries: &[u32]) -> bool
    ensures { Tells
        ((i : ℕ) → i < length entries.now
        → (get_or entries.now i 0 ≤ most_handed) ⊎ (get_or entries.now i 0 ≡ barred))
        result }
{
    entries.iter().all(|e| *e <= MOST_HANDED || *e == BARRED)
}

// Each of n rows of s entries has an entry that is not barred.
fn rows_open(entries: &[u32], n: usize, s: usize) -> bool
    requires { (1 ≤ s) × (length entries.now ≡ n * s) }
    ensures { Tells
        ((i : ℕ) → i < n → (x : ℕ) × (x < s) × (get_or entries.now (i * s + x) 0 ≡ barred → ⊥))
        result }
{
    for i in 0..n {
        if !row_open(&entries[i * s..i * s + s]) {
            return false;
        }
    }
    true
}

// One of the row's entries is not barred.
fn row_open(row: &[u32]) -> bool
    ensures { Tells ((x : ℕ) × (x < length row.now) × (get_or row.now x 0 ≡ barred → ⊥)) result }
{
    row.iter().any(|e| *e != BARRED)
}
