// The report: a sheet from standard input, its report to standard output. All bytes of it are made by the library; here
// is only what reads, goes from page to page, and writes.
#![tactic(auto)]

use parsimony::{BARRED, Cell, MOST_NODES, NO_CHILD};
use report_lines::frame::{columns_line, total_line};
use report_pages::{MOST_ENTRIES, Progress, ReadSheet, Room, print_page, refusal_line};
use report_text::Text;
use sheet::{MOST_BYTES, read_sheet};
use sheet_costs::flat_costs;
use sheet_lines::MOST_NAMES;

const STANDARD_INPUT: i32 = 0;

const STANDARD_OUTPUT: i32 = 1;

// One byte more than a sheet may have, so that a longer one is known for that.
const SHEET_ROOM: usize = MOST_BYTES + 1;

// What goes out in one write.
const PAGE_ROOM: usize = 65536;

// Writes bytes.
fn write_bytes(bytes: &[u8]) {
    io::write_all(STANDARD_OUTPUT, bytes);
}

// Writes the lines of all columns, page by page, and answers the total.
// It is a `while`, since each page says where the next one starts.
fn write_columns(s: &ReadSheet) -> usize {
    let mut cells: [Cell; MOST_NAMES] = [0; MOST_NAMES];
    let mut states = [0u8; MOST_NODES];
    let mut sets: [Cell; MOST_NODES] = [0; MOST_NODES];
    let mut rows = [BARRED; MOST_ENTRIES];
    let mut room = Room {
        cells: &mut cells,
        states: &mut states,
        sets: &mut sets,
        rows: &mut rows,
    };
    let mut bytes = [0; PAGE_ROOM];
    let mut page = Text::over(&mut bytes);
    let mut done = Progress { next: 0, total: 0 };
    while done.next < s.numbers.columns {
        done = print_page(s, done, &mut room, &mut page);
        write_bytes(page.as_slice());
    }
    done.total
}

// Writes the report of a sound sheet.
fn write_report(s: &ReadSheet) {
    write_bytes(columns_line(s.numbers.columns).as_slice());
    let total = write_columns(s);
    write_bytes(total_line(total).as_slice());
}

// Reads the sheet, and writes its report or its refusal.
fn report(sheet: &[u8]) {
    let mut names = [0usize; MOST_NAMES];
    let mut table = [[0u16; 4]; 4];
    let mut left = [NO_CHILD; MOST_NODES];
    let mut right = [NO_CHILD; MOST_NODES];
    match read_sheet(sheet, &mut names, &mut table, &mut left, &mut right) {
        Err(fault) => write_bytes(refusal_line(fault).as_slice()),
        Ok(s) => {
            let costs = flat_costs(table);
            write_report(&ReadSheet {
                bytes: sheet,
                numbers: s,
                costs: &costs,
                left: &left,
                right: &right,
            });
        }
    }
}

fn main() {
    let mut sheet = [0u8; SHEET_ROOM];
    let n = io::read_full(STANDARD_INPUT, &mut sheet);
    report(&sheet[..n]);
}
