// The section of the costs: the unit table, or four lines of four numbers.
#![tactic(auto)]

ghost use Rattle.std.specs.Prelude.{[], ◌≡◌, ℕ, ◌<◌, ◌≤◌};
ghost use Rattle.std.specs.Option.{ok_or};
ghost use Rattle.sheet_lines.specs.Counting.{GivesCount};
ghost use Rattle.sheet_lines.specs.Section.{GivesSection, section, wrote};
ghost use Rattle.sheet_lines.specs.declared.Fault.{Fault};
ghost use Rattle.sheet_costs.specs.CostRules.{Flat};
ghost use Rattle.sheet_costs.specs.Costs.{unit_table, cost_item, cost_row_of, cost_judge, cost_count};
ghost use Rattle.sheet_costs.specs.Costs.{cost_table, costs_of};

use parsimony::MOST_COST;
use sheet_lines::{Fault, LINE_END, SPACE, field_at, read_count};

// The most that a number of a cost line may be: what a change may cost.
const MOST_NUMBER: usize = MOST_COST as usize;

// The four costs on the line at a place, for the parent's state x, and the place of the next line.
// One by one, as each stands before its own byte: a loop over them would choose the byte by the number, no plainer.
#[tactic(auto, using(sheet_lines::proofs::CountLaws::field_small))]
fn four_costs(sheet: &[u8], x: usize, at: usize) -> Option<([u16; 4], usize)>
    requires { x < 4 }
    ensures { (line : ℕ) → cost_item (ok_or result (Fault.Sheet line)) ≡ cost_row_of sheet.now x at line }
{
    let (a, second) = field_at(sheet, at, MOST_NUMBER, SPACE)?;
    let (b, third) = field_at(sheet, second, MOST_NUMBER, SPACE)?;
    let (c, fourth) = field_at(sheet, third, MOST_NUMBER, SPACE)?;
    let (d, next) = field_at(sheet, fourth, MOST_NUMBER, LINE_END)?;
    let row = [a as u16, b as u16, c as u16, d as u16];
    if row[x] != 0 {
        return None;
    }
    Some((row, next))
}

// The line of the cost table at a place, for the parent's state x: its costs, and the place of the next line.
fn read_cost_row(sheet: &[u8], x: usize, at: usize, line: usize) -> Result<([u16; 4], usize), Fault>
    requires { x < 4 }
    ensures { cost_item result ≡ cost_row_of sheet.now x at line }
{
    four_costs(sheet, x, at).ok_or(Fault::Sheet(line))
}

// The four lines of the cost table from a place on, each of which goes into table: the place of the next line.
fn read_cost_rows(
    sheet: &[u8],
    at: usize,
    line: usize,
    table: &mut [[u16; 4]; 4],
) -> Result<usize, Fault>
    requires { line ≤ 100000 }
    ensures { GivesSection (section (cost_judge sheet.now) 4 at line []) result
        table.old table.new }
{
    let mut place = at;
    for x in 0..4 {
        let (row, next) = read_cost_row(sheet, x, place, line + x)?;
        table[x] = row;
        place = next;
    }
    Ok(place)
}

// Every change costs 1.
#[tactic(auto, using(crate::proofs::CostSteps::unit_written), unfolding(crate::specs::Costs::unit_table))]
fn put_unit(table: &mut [[u16; 4]; 4])
    ensures { table.new ≡ wrote unit_table table.old }
{
    *table = [[0, 1, 1, 1], [1, 0, 1, 1], [1, 1, 0, 1], [1, 1, 1, 0]];
}

// The cost table of the count k at a place, the unit table for 0, four lines otherwise: the place of the next line.
fn read_table(
    sheet: &[u8],
    k: usize,
    at: usize,
    line: usize,
    table: &mut [[u16; 4]; 4],
) -> Result<usize, Fault>
    requires { line ≤ 100000 }
    ensures { GivesSection (cost_table sheet.now k at line) result
        table.old table.new }
{
    if k == 0 {
        put_unit(table);
        return Ok(at);
    }
    read_cost_rows(sheet, at, line, table)
}

// The count line of the costs, 0 or 4: the count, and the place of the next line.
#[tactic(auto, using(crate::proofs::CostSteps::cost_count_none, crate::proofs::CostSteps::cost_count_zero, crate::proofs::CostSteps::cost_count_four, crate::proofs::CostSteps::cost_count_other), unfolding(sheet_lines::specs::Bytes::bytes))]
fn read_cost_count(sheet: &[u8], at: usize, line: usize) -> Result<(usize, usize), Fault>
    ensures { result ≡ cost_count sheet.now at line }
{
    let (k, next) = read_count(sheet, at, line, b"costs ", 0, 4)?;
    match k {
        0 | 4 => Ok((k, next)),
        _ => Err(Fault::Sheet(line)),
    }
}

// The section of the costs: its count line on a line, and the table. The count, and the place of the next line.
pub fn costs_section(
    sheet: &[u8],
    at: usize,
    line: usize,
    table: &mut [[u16; 4]; 4],
) -> Result<(usize, usize), Fault>
    requires { line ≤ 65535 }
    ensures { GivesCount (costs_of sheet.now at line) result table.old table.new }
{
    let (k, next) = read_cost_count(sheet, at, line)?;
    let end = read_table(sheet, k, next, line + 1, table)?;
    Ok((k, end))
}

// The costs of a table in one list, row after row: the change from x to y stands at x * 4 + y.
pub fn flat_costs(table: [[u16; 4]; 4]) -> [u16; 16]
    ensures { Flat table result }
{
    // One by one, so that it shows which cost stands where: `as_flattened` gives a slice, and no array of 16.
    let [a, b, c, d] = table;
    [
        a[0], a[1], a[2], a[3], b[0], b[1], b[2], b[3], c[0], c[1], c[2], c[3], d[0], d[1], d[2],
        d[3],
    ]
}
