// The five table calls with numbers as u64, as C and Rust call them (`calls_c` exports them). The result's low 8 bits
// are the number; above them stand the node for SHAPE and the change count of set counting, else 0.
#![tactic(auto)]

ghost use Rattle.std.specs.Prelude.{◌≡◌, [], ◌<◌};
ghost use Rattle.promises.specs.Answers.{carried_by, answer_of, value_of};
ghost use Rattle.promises.specs.Input.{entered, entered_with};
ghost use Rattle.calls.specs.Coded.{count_code, ScoredCode, LabelledCode, SetsCode, HandedUpCode, CountCode};
ghost use Rattle.answer_codes.specs.Codes.{start_of};

use answer_codes::{code, refusal_code, start_of};
use parsimony::Cell;
use promises::{Refusal, Table};

// Scoring: the score of each column.
pub fn fernijster_score(
    left: &[u16],
    right: &[u16],
    s: u64,
    costs: &[u16],
    c: u64,
    cells: &[Cell],
    handed: &[u32],
    scores: &mut [u32],
    rows: &mut [u32],
) -> u64
    ensures { ScoredCode
        (entered left right s costs c cells handed) scores.old rows.old result scores.new
        rows.new }
{
    let table = Table {
        left,
        right,
        s: s as usize,
        costs,
        c: c as usize,
        cells,
        handed,
    };
    code(scorer::score(&table, scores, rows))
}

// Labelling: the state of each node in one column, from a start state.
pub fn fernijster_label(
    left: &[u16],
    right: &[u16],
    s: u64,
    costs: &[u16],
    c: u64,
    cells: &[Cell],
    handed: &[u32],
    column: u64,
    start: u64,
    states: &mut [u8],
    rows: &mut [u32],
) -> u64
    ensures { LabelledCode
        (entered left right s costs c cells handed) column (start_of start) states.old rows.old result
        states.new rows.new }
{
    let table = Table {
        left,
        right,
        s: s as usize,
        costs,
        c: c as usize,
        cells,
        handed,
    };
    code(scorer::label(&table, column as usize, start_of(start), states, rows))
}

// The set call: the set of each node in one column, from a start set.
pub fn fernijster_sets(
    left: &[u16],
    right: &[u16],
    s: u64,
    costs: &[u16],
    c: u64,
    cells: &[Cell],
    handed: &[u32],
    column: u64,
    start: u64,
    sets: &mut [Cell],
    rows: &mut [u32],
) -> u64
    ensures { SetsCode
        (entered left right s costs c cells handed) column (start_of start) sets.old rows.old result
        sets.new rows.new }
{
    let table = Table {
        left,
        right,
        s: s as usize,
        costs,
        c: c as usize,
        cells,
        handed,
    };
    code(scorer::sets(&table, column as usize, start_of(start), sets, rows))
}

// Handing up: the root's row in one column.
pub fn fernijster_hand_up(
    left: &[u16],
    right: &[u16],
    s: u64,
    costs: &[u16],
    c: u64,
    cells: &[Cell],
    handed: &[u32],
    column: u64,
    row: &mut [u32],
    rows: &mut [u32],
) -> u64
    ensures { HandedUpCode
        (entered left right s costs c cells handed) column row.old rows.old result row.new
        rows.new }
{
    let table = Table {
        left,
        right,
        s: s as usize,
        costs,
        c: c as usize,
        cells,
        handed,
    };
    code(scorer::hand_up(&table, column as usize, row, rows))
}

// The number of set counting's answer, its node or its change count.
fn count_code(counted: Result<usize, Refusal>) -> u64
    requires { (carried_by (answer_of counted) < 72057594037927936) × (value_of counted < 72057594037927936) }
    ensures { result ≡ count_code counted }
{
    match counted {
        Ok(changes) => 256 * (changes as u64),
        Err(refusal) => refusal_code(refusal),
    }
}

// Counting by sets: the preliminary set of each node in one column, and the number of changes.
pub fn fernijster_count(
    left: &[u16],
    right: &[u16],
    s: u64,
    costs: &[u16],
    c: u64,
    cells: &[Cell],
    column: u64,
    sets: &mut [Cell],
) -> u64
    ensures { CountCode
        (entered_with left right s costs c cells []) column
        sets.old result sets.new }
{
    let table = Table {
        left,
        right,
        s: s as usize,
        costs,
        c: c as usize,
        cells,
        handed: &[],
    };
    count_code(scorer::count(&table, column as usize, sets))
}
