// The sheet up to its tree line: the sections one after the other.
#![tactic(auto)]

ghost use Rattle.std.specs.Prelude.{◌≡◌, ◌≤◌, length};
ghost use Rattle.sheet_sections.specs.Sheet.{GivesRest, GivesSections, costs_from, columns_from, sheet_of};

use sheet_cells::{Matrix, matrix_section};
use sheet_costs::costs_section;
use sheet_lines::{Fault, read_count};
use sheet_names::names_section;

// What the sections say: the number of tips and of columns, the place of the first cell, and the place and the number
// of the tree line.
#[derive(Clone, Copy)]
pub struct Sections {
    pub tips: usize,
    pub columns: usize,
    pub cells: usize,
    pub tree: usize,
    pub line: usize,
}

// The costs and the count of trees, after t names and the cells; the costs go into table.
fn read_from_costs(
    sheet: &[u8],
    t: usize,
    matrix: Matrix,
    table: &mut [[u16; 4]; 4],
) -> Result<Sections, Fault>
    requires { t ≤ 512 }
    ensures { GivesRest (costs_from sheet.now t matrix.columns matrix.cells matrix.next) result
        table.old table.new }
{
    let (k, next) = costs_section(sheet, matrix.next, t + t + 3, table)?;
    let (_, tree) = read_count(sheet, next, t + t + 4 + k, b"tree ", 1, 1)?;
    Ok(Sections {
        tips: t,
        columns: matrix.columns,
        cells: matrix.cells,
        tree,
        line: t + t + 5 + k,
    })
}

// The columns, the costs and the count of trees, after t names; the costs go into table.
fn read_from_columns(
    sheet: &[u8],
    t: usize,
    at: usize,
    table: &mut [[u16; 4]; 4],
) -> Result<Sections, Fault>
    requires { t ≤ 512 }
    ensures { GivesRest (columns_from sheet.now t at) result table.old table.new }
{
    let matrix = matrix_section(sheet, t, at, t + 2)?;
    read_from_costs(sheet, t, matrix, table)
}

// The sheet up to its tree line. The place of each name goes into names, and the costs into table.
pub fn read_sections(
    sheet: &[u8],
    names: &mut [usize],
    table: &mut [[u16; 4]; 4],
) -> Result<Sections, Fault>
    requires { 512 ≤ length names.old }
    ensures { GivesSections (sheet_of sheet.now) result names.old names.new
        table.old table.new }
{
    let (t, next) = names_section(sheet, 0, 1, names)?;
    read_from_columns(sheet, t, next, table)
}
