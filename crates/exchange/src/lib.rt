// The host's one entry: a sheet's bytes and a column number go in, that column's report line comes out (`exchange_c`
// exports it).
#![tactic(auto)]

ghost use Rattle.std.specs.Prelude.{◌<◌};
ghost use Rattle.exchange.specs.Entry.{Entered};

use answer_codes::fault_code;
use parsimony::{BARRED, Cell, MOST_NODES, NO_CHILD};
use report_lines::column::MOST_LINE;
use report_pages::{MOST_ENTRIES, ReadSheet, Room, sheet_line};
use report_text::Text;
use sheet::read_sheet;
use sheet_costs::flat_costs;
use sheet_lines::MOST_NAMES;

// What the entry itself refuses: no such column, and too little room.
const WHICH: u64 = 6;

const ROOM: u64 = 8;

// The line of column j of a sheet that has been read goes to the output, where it fits.
fn give_line(s: &ReadSheet, j: usize, out: &mut [u8]) -> u64
    requires { j < s.now.numbers.columns }
    ensures { Entered s.now.bytes.now j out.old result out.new }
{
    let mut cells: [Cell; MOST_NAMES] = [0; MOST_NAMES];
    let mut states = [0u8; MOST_NODES];
    let mut sets: [Cell; MOST_NODES] = [0; MOST_NODES];
    let mut rows = [BARRED; MOST_ENTRIES];
    let mut room = Room {
        cells: &mut cells,
        states: &mut states,
        sets: &mut sets,
        rows: &mut rows,
    };
    let mut bytes = [0; MOST_LINE];
    let mut line = Text::over(&mut bytes);
    sheet_line(s, j, &mut room, &mut line);
    let text = line.as_slice();
    let n = text.len();
    if out.len() < n {
        return ROOM;
    }
    out[..n].copy_from_slice(text);
    256 * (n as u64)
}

// The line of a column of the sheet, without its line end: the low 8 bits of the result are the number; bits 8 to 31
// the bytes written when done, the line when the sheet is refused.
pub fn fernijster_column(sheet: &[u8], column: u64, out: &mut [u8]) -> u64
    ensures { Entered sheet.now column out.old result out.new }
{
    let mut names = [0usize; MOST_NAMES];
    let mut table = [[0u16; 4]; 4];
    let mut left = [NO_CHILD; MOST_NODES];
    let mut right = [NO_CHILD; MOST_NODES];
    match read_sheet(sheet, &mut names, &mut table, &mut left, &mut right) {
        Err(fault) => fault_code(fault),
        Ok(s) => {
            if (s.columns as u64) <= column {
                return WHICH;
            }
            let costs = flat_costs(table);
            let read = ReadSheet {
                bytes: sheet,
                numbers: s,
                costs: &costs,
                left: &left,
                right: &right,
            };
            give_line(&read, column as usize, out)
        }
    }
}
