// The five table calls for C and Rust, exported: numbers as u64, a slice as pointer and count. Each is the call of its
// name in `calls`, under the same contract.
#![tactic(auto)]

ghost use Rattle.std.specs.Prelude.{[]};
ghost use Rattle.promises.specs.Input.{entered, entered_with};
ghost use Rattle.calls.specs.Coded.{ScoredCode, LabelledCode, SetsCode, HandedUpCode, CountCode};
ghost use Rattle.answer_codes.specs.Codes.{start_of};

use parsimony::Cell;

// Scoring: the score of each column.
#[unsafe(no_mangle)]
pub extern "C" fn fernijster_score(
    left: &[u16],
    right: &[u16],
    s: u64,
    costs: &[u16],
    c: u64,
    cells: &[Cell],
    handed: &[u32],
    scores: &mut [u32],
    rows: &mut [u32],
) -> u64
    ensures { ScoredCode
        (entered left right s costs c cells handed) scores.old rows.old result scores.new
        rows.new }
{
    calls::fernijster_score(left, right, s, costs, c, cells, handed, scores, rows)
}

// Labelling: the state of each node in one column, from a start state.
#[unsafe(no_mangle)]
pub extern "C" fn fernijster_label(
    left: &[u16],
    right: &[u16],
    s: u64,
    costs: &[u16],
    c: u64,
    cells: &[Cell],
    handed: &[u32],
    column: u64,
    start: u64,
    states: &mut [u8],
    rows: &mut [u32],
) -> u64
    ensures { LabelledCode
        (entered left right s costs c cells handed) column (start_of start) states.old rows.old result
        states.new rows.new }
{
    calls::fernijster_label(
        left, right, s, costs, c, cells, handed, column, start, states, rows,
    )
}

// The set call: the set of each node in one column, from a start set.
#[unsafe(no_mangle)]
pub extern "C" fn fernijster_sets(
    left: &[u16],
    right: &[u16],
    s: u64,
    costs: &[u16],
    c: u64,
    cells: &[Cell],
    handed: &[u32],
    column: u64,
    start: u64,
    sets: &mut [Cell],
    rows: &mut [u32],
) -> u64
    ensures { SetsCode
        (entered left right s costs c cells handed) column (start_of start) sets.old rows.old result
        sets.new rows.new }
{
    calls::fernijster_sets(
        left, right, s, costs, c, cells, handed, column, start, sets, rows,
    )
}

// Handing up: the root's row in one column.
#[unsafe(no_mangle)]
pub extern "C" fn fernijster_hand_up(
    left: &[u16],
    right: &[u16],
    s: u64,
    costs: &[u16],
    c: u64,
    cells: &[Cell],
    handed: &[u32],
    column: u64,
    row: &mut [u32],
    rows: &mut [u32],
) -> u64
    ensures { HandedUpCode
        (entered left right s costs c cells handed) column row.old rows.old result row.new
        rows.new }
{
    calls::fernijster_hand_up(left, right, s, costs, c, cells, handed, column, row, rows)
}

// Counting by sets: the preliminary set of each node in one column, and the number of changes.
#[unsafe(no_mangle)]
pub extern "C" fn fernijster_count(
    left: &[u16],
    right: &[u16],
    s: u64,
    costs: &[u16],
    c: u64,
    cells: &[Cell],
    column: u64,
    sets: &mut [Cell],
) -> u64
    ensures { CountCode
        (entered_with left right s costs c cells []) column
        sets.old result sets.new }
{
    calls::fernijster_count(left, right, s, costs, c, cells, column, sets)
}
