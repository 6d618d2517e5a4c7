// The whole sheet: its sections, its tree line, and nothing after it.
#![tactic(auto)]

ghost use Rattle.std.specs.Prelude.{◌≡◌, ◌≤◌, length};
ghost use Rattle.sheet.specs.Cells.{Inside, Filled};
ghost use Rattle.sheet.specs.Gives.{GivesSheet, GivesTree};
ghost use Rattle.sheet.specs.Judge.{judge};
ghost use Rattle.sheet_symbols.specs.Code.{symbol_set};

use parsimony::{Cell, MOST_NODES};
use sheet_lines::{Fault, MOST_NAMES, line_end};
use sheet_sections::{Sections, read_sections};
use sheet_symbols::symbol_of;
use sheet_tree::tree_line;

// What a sound sheet has: the number of tips, columns and nodes, and the place of its first cell.
#[derive(Clone, Copy)]
pub struct Sheet {
    pub tips: usize,
    pub columns: usize,
    pub cells: usize,
    pub nodes: usize,
}

// How many bytes a sheet may have.
pub const MOST_BYTES: usize = 65536;

// The tree line after the sections, and nothing after it.
fn read_tree_line(
    sheet: &[u8],
    names: &[usize],
    s: Sections,
    left: &mut [u16; MOST_NODES],
    right: &mut [u16; MOST_NODES],
) -> Result<Sheet, Fault>
    requires tips_bound { (length names.now ≡ s.tips) × (s.tips ≤ 512) }
    requires line_bound { s.line ≤ 65535 }
    ensures { GivesTree sheet.now names.now s result
        left.old right.old left.new right.new }
{
    let end = line_end(sheet, s.tree).ok_or(Fault::Sheet(s.line))?;
    let (_, nodes) = tree_line(sheet, names, s.tree, end, left, right).ok_or(Fault::TreeText(
        s.line,
    ))?;
    if end + 1 != sheet.len() {
        return Err(Fault::Sheet(s.line + 1));
    }
    Ok(Sheet {
        tips: s.tips,
        columns: s.columns,
        cells: s.cells,
        nodes,
    })
}

// The whole sheet. The place of each name goes into names, the costs into table, and the tree into left and right.
pub fn read_sheet(
    sheet: &[u8],
    names: &mut [usize],
    table: &mut [[u16; 4]; 4],
    left: &mut [u16; MOST_NODES],
    right: &mut [u16; MOST_NODES],
) -> Result<Sheet, Fault>
    requires { 512 ≤ length names.old }
    ensures { GivesSheet (judge sheet.now) result table.new
        left.old right.old left.new right.new }
{
    if MOST_BYTES < sheet.len() {
        return Err(Fault::Sheet(0));
    }
    let s = read_sections(sheet, names, table)?;
    read_tree_line(sheet, &names[..s.tips], s, left, right)
}

// The set of states of a cell's symbol.
#[tactic(auto, using(crate::proofs::CellSteps::set_of_symbol))]
fn symbol_cell(byte: u8) -> Cell
    ensures { result ≡ symbol_set byte }
{
    symbol_of(byte).unwrap_or(0)
}

// Puts the cells of column j, one for each of t rows of c columns from a place on, into cells.
#[tactic(auto, using(crate::proofs::CellSteps::filled_none, crate::proofs::CellSteps::filled_more))]
pub fn put_cells(
    sheet: &[u8],
    t: usize,
    c: usize,
    at: usize,
    j: usize,
    cells: &mut [Cell; MOST_NAMES],
)
    requires { (t ≤ 512) × (c ≤ 65535) × Inside sheet.now t c at j }
    ensures { Filled sheet.now c at j t cells.new }
{
    for r in 0..t {
        cells[r] = symbol_cell(sheet[at + r * (c + 1) + j]);
    }
}
