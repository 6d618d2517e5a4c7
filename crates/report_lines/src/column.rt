// A column's line: its number, its score, its quiet mark, the number of nodes whose set has one state, and the labels.
ghost use Rattle.std.specs.Prelude.{[], ℕ, ◌+◌, ◌≤◌, length, get_or};
ghost use Rattle.promises.specs.CallRules.{Allowed, FitsWork};
ghost use Rattle.promises.specs.Input.{asked_with, entered_with};
ghost use Rattle.report_marks.specs.Letters.{letters};
ghost use Rattle.report_text.specs.Puts.{Fits, Puts};
ghost use Rattle.report_lines.specs.Line.{field, line_text};
ghost use Rattle.report_lines.specs.Reports.{Reported};

use parsimony::Cell;
use promises::Table;
use report_marks::letters::put_letters;
use report_marks::ones::one_states;
use report_marks::quiet::quiet_mark;
use report_text::Text;
use scorer::work_column;
use sheet_lines::SPACE;

// No column's line is longer.
pub const MOST_LINE: usize = 1056;

// Puts a number and a space.
#[tactic(auto, using(std::proofs::lemmas::Grind::common_steps, crate::proofs::LineSteps::field_steps))]
fn put_field(n: usize, line: &mut Text)
    requires { Fits (field n) line.old }
    ensures { Puts (field n) line.old line.new }
{
    line.number(n);
    line.byte(SPACE);
}

// Puts the five parts of a column's line.
#[tactic(auto, using(std::proofs::lemmas::Grind::common_steps, crate::proofs::LineSteps::line_steps))]
fn put_line(number: usize, score: usize, quiet: usize, ones: usize, states: &[u8], line: &mut Text)
    requires { Fits
        (line_text number score quiet ones (letters (λ (v : ℕ). get_or states.now v 0) (length states.now)))
        line.old }
    ensures { Puts
        (line_text number score quiet ones (letters (λ (v : ℕ). get_or states.now v 0) (length states.now)))
        line.old line.new }
{
    put_field(number, line);
    put_field(score, line);
    put_field(quiet, line);
    put_field(ones, line);
    put_letters(states, line);
}

// Puts the line of a table's one column, which has this number in the sheet, and answers the score.
pub fn column_line(
    left: &[u16],
    right: &[u16],
    costs: &[u16],
    cells: &[Cell],
    number: usize,
    states: &mut [u8],
    sets: &mut [Cell],
    rows: &mut [u32],
    line: &mut Text,
) -> usize
    requires allowed { Allowed (asked_with left right 4 costs 1 cells []) }
    requires fits_work { FitsWork (asked_with left right 4 costs 1 cells []) (length states.old) (length sets.old)
        (length rows.old) }
    requires number_bound { (number ≤ 65535) × (line.old.len + 1056 ≤ length line.old.list.now) }
    ensures { Reported (entered_with left right 4 costs 1 cells []) number
        states.old sets.old rows.old line.old result states.new sets.new rows.new line.new }
{
    let table = Table {
        left,
        right,
        s: 4,
        costs,
        c: 1,
        cells,
        handed: &[],
    };
    let score = work_column(&table, 0, states, sets, rows).unwrap();
    let n = left.len();
    let ones = one_states(&sets[..n]);
    let quiet = quiet_mark(cells);
    put_line(number, score, quiet, ones, &states[..n], line);
    score
}
