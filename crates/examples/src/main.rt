// The paper's edges of the table calls: each refusal at its edge, and what is done beside it. A line has what is tried
// and the code that comes back: the number, and for SHAPE the node above its 8 bits.
#![tactic(auto)]

ghost use Rattle.std.specs.Prelude.{◌≡◌, ◌<◌, ◌≤◌, length};

use answer_codes::NO_START;
use calls::{
    fernijster_count, fernijster_hand_up, fernijster_label, fernijster_score, fernijster_sets,
};
use parsimony::{BARRED, Cell, NO_CHILD};

// One line: what is tried, and the code.
fn show(what: &[u8], code: u64) {
    io::write_all(1, what);
    io::write_all(1, b" ");
    io::print_decimal(1, code);
    io::write_all(1, b"\n");
}

// The left entry of node v of a comb: even nodes from 2 on join the two nodes before them.
fn left_of(v: u16) -> u16 {
    if v % 2 == 1 {
        return NO_CHILD;
    }
    if v < 2 {
        return NO_CHILD;
    }
    v - 2
}

// The right entry of node v of a comb: the other child, or the tip's row.
fn right_of(v: u16) -> u16
    requires { v < 1025 }
{
    if v % 2 == 1 {
        return (v + 1) / 2;
    }
    if v < 2 {
        return 0;
    }
    v - 1
}

// A comb of as many nodes as the lists have.
fn comb(left: &mut [u16], right: &mut [u16])
    requires { (length left.old ≡ 1025) × (length right.old ≡ 1025) }
{
    for v in 0..1025u16 {
        left[usize::from(v)] = left_of(v);
        right[usize::from(v)] = right_of(v);
    }
}

// Scoring, with room for one score and for two entries of each of 1,025 nodes.
fn score(
    left: &[u16],
    right: &[u16],
    s: u64,
    costs: &[u16],
    c: u64,
    cells: &[Cell],
    handed: &[u32],
) -> u64 {
    let mut scores = [7u32; 1];
    let mut rows = [7u32; 2050];
    fernijster_score(
        left,
        right,
        s,
        costs,
        c,
        cells,
        handed,
        &mut scores,
        &mut rows,
    )
}

// Scoring the first n nodes of a tree of two states.
fn score_first(left: &[u16], right: &[u16], cells: &[Cell], n: usize) -> u64
    requires { (n ≤ length left.now) × (n ≤ length right.now) × (n ≤ length cells.now) }
{
    let tips = n / 2 + n % 2;
    score(
        &left[..n],
        &right[..n],
        2,
        &[0, 1, 1, 0],
        1,
        &cells[..tips],
        &[],
    )
}

// Scoring the first n nodes of a comb, every tip in state 0.
fn score_comb(n: usize) -> u64
    requires { n < 1026 }
{
    let mut left = [0u16; 1025];
    let mut right = [0u16; 1025];
    comb(&mut left, &mut right);
    score_first(&left, &right, &[1; 1025], n)
}

fn sizes() {
    show(b"n = 0:", score_comb(0));
    show(b"n = 1:", score_comb(1));
    show(b"n = 2:", score_comb(2));
    show(b"n = 1,023:", score_comb(1023));
    show(b"n = 1,025:", score_comb(1025));
}

// Two tips in states 0 and 1 under a root, with the root's left child and the right list that are given.
fn show_two(what: &[u8], child: u16, right: &[u16]) {
    show(
        what,
        score(
            &[NO_CHILD, NO_CHILD, child],
            right,
            2,
            &[0, 1, 1, 0],
            1,
            &[1, 2],
            &[],
        ),
    );
}

fn shapes() {
    show_two(b"lists of 3 and 1:", 0, &[0]);
    show_two(b"two tips:", 0, &[0, 1, 1]);
    show_two(b"row 2 of 2 at node 1:", 0, &[0, 2, 1]);
    show_two(b"row 0 twice:", 0, &[0, 0, 1]);
    show_two(b"a child not below:", 0, &[0, 1, 2]);
    show_two(b"a child twice:", 1, &[0, 1, 1]);
}

// One tip with the cell that is given, under a cost table of s states.
fn show_costs(what: &[u8], s: u64, cell: Cell, costs: &[u16]) {
    show(what, score(&[NO_CHILD], &[0], s, costs, 1, &[cell], &[]));
}

fn costs() {
    show_costs(b"s = 1:", 1, 1, &[0]);
    show_costs(b"s = 16:", 16, 65535, &[0; 256]);
    show_costs(b"s = 17:", 17, 1, &[0; 289]);
    show_costs(b"cost 999:", 2, 1, &[0, 999, 1, 0]);
    show_costs(b"cost 1,000:", 2, 1, &[0, 1000, 1, 0]);
    show_costs(b"three costs:", 2, 1, &[0, 1, 1]);
    show_costs(b"diagonal 1:", 2, 1, &[0, 1, 1, 1]);
}

// One tip of two states, its cells in c columns.
fn show_cells(what: &[u8], right: u16, c: u64, cells: &[Cell]) {
    show(
        what,
        score(&[NO_CHILD], &[right], 2, &[0, 1, 1, 0], c, cells, &[]),
    );
}

fn cells() {
    show_cells(b"c = 0:", 0, 0, &[]);
    show_cells(b"c = 65,536, no tip a symbol:", 32768, 65536, &[]);
    show_cells(b"no cell:", 0, 1, &[]);
    show_cells(b"an empty cell:", 0, 1, &[0]);
    show_cells(b"both states:", 0, 1, &[3]);
    show_cells(b"state 2 of 2:", 0, 1, &[4]);
}

// One tip of two states that is handed its row in one column.
fn show_handed(what: &[u8], handed: &[u32]) {
    show(
        what,
        score(&[NO_CHILD], &[32768], 2, &[0, 1, 1, 0], 1, &[], handed),
    );
}

fn handed() {
    show_handed(b"handed 1,020,978:", &[1020978, BARRED]);
    show_handed(b"handed 1,020,979:", &[1020979, BARRED]);
    show_handed(b"handed, wholly barred:", &[BARRED, BARRED]);
    show_handed(b"handed, one entry:", &[0]);
    show(
        b"handed to no tip:",
        score(&[NO_CHILD], &[0], 2, &[0, 1, 1, 0], 1, &[1], &[0, 0]),
    );
}

// Labelling one tip of state 0 of two, into the lists that are lent.
fn label_tip(column: u64, start: u64, states: &mut [u8], rows: &mut [u32]) -> u64 {
    fernijster_label(
        &[NO_CHILD],
        &[0],
        2,
        &[0, 1, 1, 0],
        1,
        &[1],
        &[],
        column,
        start,
        states,
        rows,
    )
}

// The set of one tip of state 0 of two.
fn set_tip(column: u64, start: u64) -> u64 {
    let mut sets: [Cell; 1] = [7; 1];
    let mut rows = [7u32; 2];
    fernijster_sets(
        &[NO_CHILD],
        &[0],
        2,
        &[0, 1, 1, 0],
        1,
        &[1],
        &[],
        column,
        start,
        &mut sets,
        &mut rows,
    )
}

fn show_label(what: &[u8], column: u64, start: u64) {
    show(what, label_tip(column, start, &mut [7; 1], &mut [7; 2]));
}

fn show_set(what: &[u8], column: u64, start: u64) {
    show(what, set_tip(column, start));
}

fn label_starts() {
    show_label(b"column 0 of 1:", 0, NO_START);
    show_label(b"column 1 of 1:", 1, NO_START);
    show_label(b"start 0:", 0, 0);
    show_label(b"start 1, barred at the root:", 0, 1);
    show_label(b"start 2 of 2:", 0, 2);
}

fn set_starts() {
    show_set(b"start set {0}:", 0, 1);
    show_set(b"start set {0,1}, 1 barred at the root:", 0, 3);
    show_set(b"start set {2} of 2:", 0, 4);
    show_set(b"an empty start set:", 0, 0);
    show_set(b"column 1 of 1, sets:", 1, NO_START);
}

// Counting one tip by sets.
fn count_tip(right: u16, costs: &[u16], cells: &[Cell], column: u64) -> u64 {
    let mut sets: [Cell; 1] = [7; 1];
    fernijster_count(&[NO_CHILD], &[right], 2, costs, 1, cells, column, &mut sets)
}

fn show_count(what: &[u8], costs: &[u16], column: u64) {
    show(what, count_tip(0, costs, &[1], column));
}

fn counts() {
    show_count(b"counting, unit costs:", &[0, 1, 1, 0], 0);
    show_count(b"counting, column 1 of 1:", &[0, 1, 1, 0], 1);
    show_count(b"counting, a cost of 2:", &[0, 2, 1, 0], 0);
    show(
        b"counting, a handed tip:",
        count_tip(32768, &[0, 1, 1, 0], &[], 0),
    );
}

// Handing up one tip, with room for so many entries.
fn hand_up_tip(row: &mut [u32], rows: &mut [u32]) -> u64 {
    fernijster_hand_up(
        &[NO_CHILD],
        &[0],
        2,
        &[0, 1, 1, 0],
        1,
        &[1],
        &[],
        0,
        row,
        rows,
    )
}

// The last two lend no room at all: WHICH comes before ROOM.
fn rooms() {
    show(
        b"room for 2 entries and 2 row entries:",
        hand_up_tip(&mut [7; 2], &mut [7; 2]),
    );
    show(b"room for 1 entry:", hand_up_tip(&mut [7; 1], &mut [7; 2]));
    show(
        b"room for 1 row entry:",
        hand_up_tip(&mut [7; 2], &mut [7; 1]),
    );
    show(
        b"column 1 of 1, no room:",
        label_tip(1, NO_START, &mut [], &mut []),
    );
    show(
        b"column 0 of 1, no room:",
        label_tip(0, NO_START, &mut [], &mut []),
    );
}

fn main() {
    sizes();
    shapes();
    costs();
    cells();
    handed();
    label_starts();
    set_starts();
    counts();
    rooms();
}
