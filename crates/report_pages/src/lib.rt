// The lines of the columns of a sheet that has been read, one alone or as many as a page holds, and the line of a
// fault.
#![tactic(auto)]

ghost use Rattle.std.specs.Prelude.{◌≡◌, ◌+◌, ◌*◌, ◌<◌, ◌≤◌, length};
ghost use Rattle.sheet_lines.specs.Fault.{fault_number, fault_line};
ghost use Rattle.report_pages.specs.Page.{LineOf, PageOf};
ghost use Rattle.report_pages.specs.ReadOnce.{read_once};
ghost use Rattle.report_pages.specs.Rooms.{Ample, SameRoom};
ghost use Rattle.report_pages.specs.SheetLine.{ReadAs, PrintedOf};
ghost use Rattle.report_lines.specs.Frame.{refused_line};
ghost use Rattle.sheet.specs.Judge.{judge};

use parsimony::{Cell, MOST_NODES};
use report_lines::column::{MOST_LINE, column_line};
use report_lines::frame::{Frame, refused_line};
use report_text::Text;
use sheet::{Sheet, put_cells};
use sheet_lines::{Fault, LINE_END, MOST_NAMES};

// The entries of the row room: four for each node.
pub const MOST_ENTRIES: usize = 4 * MOST_NODES;

// Room for the work on a column, lent: for the cells, and for the states, the sets and the rows of all nodes.
#[derive(Drop)]
pub struct Room<'a> {
    pub cells: &'a mut [Cell; MOST_NAMES],
    pub states: &'a mut [u8],
    pub sets: &'a mut [Cell],
    pub rows: &'a mut [u32],
}

// A sheet that has been read: its bytes, its numbers, its costs and its tree.
#[derive(Clone, Copy)]
pub struct ReadSheet<'a> {
    pub bytes: &'a [u8],
    pub numbers: Sheet,
    pub costs: &'a [u16],
    pub left: &'a [u16],
    pub right: &'a [u16],
    pub ghost read: { ReadAs (judge bytes.now) numbers costs.now left.now right.now } by { read_once _ _ _ _ _ },
}

// Puts the line of column j, and answers the column's score.
pub fn sheet_line(s: &ReadSheet, j: usize, room: &mut Room, line: &mut Text) -> usize
    requires inside { j < s.now.numbers.columns }
    requires room { Ample room.old }
    requires line_room { line.old.len + 1056 ≤ length line.old.list.now }
    ensures room { SameRoom room.old room.new }
    ensures printed { PrintedOf s.now.bytes.now j line.old line.new result }
{
    let ReadSheet {
        bytes,
        numbers,
        costs,
        left,
        right,
    } = *s;
    put_cells(
        bytes,
        numbers.tips,
        numbers.columns,
        numbers.cells,
        j,
        room.cells,
    );
    column_line(
        &left[..numbers.nodes],
        &right[..numbers.nodes],
        costs,
        &room.cells[..numbers.tips],
        j,
        room.states,
        room.sets,
        room.rows,
        line,
    )
}

// Puts the line of column j and its line end, and answers the column's score.
fn put_line(s: &ReadSheet, j: usize, room: &mut Room, page: &mut Text) -> usize
    requires inside { j < s.now.numbers.columns }
    requires room { Ample room.old }
    requires page_room { page.old.len + 1057 ≤ length page.old.list.now }
    ensures room { SameRoom room.old room.new }
    ensures line { LineOf s.now.bytes.now j page.old page.new result }
{
    let score = sheet_line(s, j, room, page);
    page.byte(LINE_END);
    score
}

// How far a report is printed: the column to go on from, and the scores so far.
#[derive(Clone, Copy)]
pub struct Progress {
    pub next: usize,
    pub total: usize,
    pub ghost few: { total ≤ next * 4294967295 },
}

// Prints a page: the lines of as many columns as fit, from where the page before it ended.
pub fn print_page(s: &ReadSheet, from: Progress, room: &mut Room, page: &mut Text) -> Progress
    requires inside { from.next ≤ s.now.numbers.columns }
    requires room { Ample room.old }
    requires page_room { 1057 ≤ length page.old.list.now }
    ensures room { SameRoom room.old room.new }
    ensures page { PageOf s.now.bytes.now from.next from.total result.next result.total page.old page.new }
    ensures inside { (page.new.len ≤ length page.new.list.now)
        × (length page.new.list.now ≡ length page.old.list.now) }
{
    page.clear();
    let mut total = from.total;
    for next in from.next..s.numbers.columns {
        if page.room() <= MOST_LINE {
            return Progress { next, total };
        }
        let score = put_line(s, next, room, page);
        total += score;
    }
    Progress {
        next: s.numbers.columns,
        total,
    }
}

// The line of a refused sheet.
pub fn refusal_line(fault: Fault) -> Frame
    ensures { result ≡ refused_line (fault_number fault) (fault_line fault) }
{
    match fault {
        Fault::Sheet(at) => refused_line(9, at),
        Fault::Symbol(at) => refused_line(10, at),
        Fault::TreeText(at) => refused_line(11, at),
    }
}
