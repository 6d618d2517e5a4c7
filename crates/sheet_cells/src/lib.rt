// The section of the columns: a line of symbols for each name.
#![tactic(auto)]

ghost use Rattle.std.specs.Prelude.{[], ◌≡◌, ◌<◌, ◌≤◌, length};
ghost use Rattle.std.specs.List.{list_all};
ghost use Rattle.sheet_lines.specs.Section.{placed, section};
ghost use Rattle.sheet_cells.specs.Cells.{is_symbol, row_to, row_of, row_judge, matrix_of};

use parsimony::MOST_COLUMNS;
use sheet_lines::{Fault, line_end, read_count};
use sheet_symbols::symbol_of;

// What the section has: the number of columns, the place of the first cell and that of the next line.
#[derive(Clone, Copy)]
pub struct Matrix {
    pub columns: usize,
    pub cells: usize,
    pub next: usize,
}

// Every byte is in the code list.
#[tactic(auto, unfolding(crate::specs::Cells::is_symbol))]
fn all_listed(text: &[u8]) -> bool
    ensures { result ≡ list_all is_symbol text.now }
{
    text.iter().all(|&byte| symbol_of(byte).is_some())
}

// The row of the line from a place up to its end, its length first and then its symbols: the place of the next line.
#[tactic(auto, using(crate::proofs::CellSteps::listed_text, crate::proofs::CellSteps::row_length, crate::proofs::CellSteps::row_unlisted, crate::proofs::CellSteps::row_whole), unfolding(sheet_lines::specs::Section::placed))]
fn judge_row(sheet: &[u8], c: usize, at: usize, end: usize, line: usize) -> Result<usize, Fault>
    requires { (at ≤ end) × (end < length sheet.now) }
    ensures { placed at result ≡ row_to c sheet.now at line end }
{
    if end - at != c {
        return Err(Fault::Sheet(line));
    }
    if !all_listed(&sheet[at..end]) {
        return Err(Fault::Symbol(line));
    }
    Ok(end + 1)
}

// The row at a place: the place of the next line.
#[tactic(auto, using(sheet_lines::proofs::LineLaws::line_from, sheet_lines::proofs::LineLaws::line_inside, crate::proofs::CellSteps::row_no_line, crate::proofs::CellSteps::row_line), unfolding(sheet_lines::specs::Section::placed))]
fn read_row(sheet: &[u8], c: usize, at: usize, line: usize) -> Result<usize, Fault>
    ensures { placed at result ≡ row_of c sheet.now at line }
{
    let end = line_end(sheet, at).ok_or(Fault::Sheet(line))?;
    judge_row(sheet, c, at, end, line)
}

// The t lines of c symbols from a place on: the place of the next line.
fn read_rows(sheet: &[u8], t: usize, c: usize, at: usize, line: usize) -> Result<usize, Fault>
    requires { (t ≤ 512) × (line ≤ 100000) }
    ensures { result ≡ (section (row_judge c sheet.now) t at line []).part }
{
    let mut place = at;
    for i in 0..t {
        place = read_row(sheet, c, place, line + i)?;
    }
    Ok(place)
}

// The section of the columns: its count line on a line, and a line of symbols for each of t names.
#[tactic(auto, using(crate::proofs::CellSteps::matrix_no_count, crate::proofs::CellSteps::matrix_fault, crate::proofs::CellSteps::matrix_whole), unfolding(sheet_lines::specs::Bytes::bytes))]
pub fn matrix_section(sheet: &[u8], t: usize, at: usize, line: usize) -> Result<Matrix, Fault>
    requires { (t ≤ 512) × (line ≤ 65535) }
    ensures { result ≡ matrix_of t sheet.now at line }
{
    let (columns, cells) = read_count(sheet, at, line, b"columns ", 0, MOST_COLUMNS)?;
    let next = read_rows(sheet, t, columns, cells, line + 1)?;
    Ok(Matrix {
        columns,
        cells,
        next,
    })
}
