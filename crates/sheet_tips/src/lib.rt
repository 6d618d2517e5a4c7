// The names of tree text: what stands at a place is read into a tip of a tree table.
#![tactic(auto)]

ghost use Rattle.std.specs.Prelude.{◌≡◌, ◌+◌, ◌<◌, ◌≤◌, eqb, not, length, get_or, set, position};
ghost use Rattle.sheet_names.specs.Name.{is_name_byte};
ghost use Rattle.sheet_tips.specs.Marks.{is_marked};
ghost use Rattle.sheet_tips.specs.Reading.{RoomForNames, GivesPlace, SameLists};
ghost use Rattle.sheet_tips.specs.Tip.{tip_of};
ghost use Rattle.sheet_tips.specs.Token.{token_end, is_line_of};

use parsimony::NO_CHILD;
use sheet_lines::{LINE_END, MOST_NAMES, rest_from, word_end};
use sheet_names::name_byte;

// The byte at a place is this one.
pub fn byte_is(sheet: &[u8], i: usize, byte: u8) -> bool
    requires { 1 ≤ byte }
    ensures { result ≡ eqb (get_or sheet.now i 0) byte }
{
    i < sheet.len() && sheet[i] == byte
}

// Where the first byte stands that may not stand in a name.
fn first_other(text: &[u8]) -> Option<usize>
    ensures { result ≡ position (λ byte. not (is_name_byte byte)) text.now }
{
    text.iter().position(|&byte| !name_byte(byte))
}

// The end of the name that starts at a place.
fn token_end(sheet: &[u8], at: usize) -> usize
    ensures { result ≡ token_end sheet.now at }
{
    let rest = rest_from(sheet, at);
    at + first_other(rest).unwrap_or(rest.len())
}

// The line at a place is the text from at up to end: it begins with it, and ends there.
#[tactic(auto, using(crate::proofs::TokenLaws::line_not, crate::proofs::TokenLaws::line_end_lem))]
fn whole_line(sheet: &[u8], at: usize, end: usize, place: usize) -> bool
    requires { (at ≤ end) × (end ≤ length sheet.now) }
    ensures { result ≡ is_line_of sheet.now at end place }
{
    match word_end(sheet, place, &sheet[at..end]) {
        None => false,
        Some(stop) => byte_is(sheet, stop, LINE_END),
    }
}

// The same, where the text is not empty.
#[tactic(auto, using(crate::proofs::TokenLaws::line_past, crate::proofs::TokenLaws::line_other))]
fn is_line(sheet: &[u8], at: usize, end: usize, place: usize) -> bool
    requires { (at < end) × (end ≤ length sheet.now) }
    ensures { result ≡ is_line_of sheet.now at end place }
{
    // Most names differ in their first byte; only the others are compared whole, which takes a few steps to begin.
    place < sheet.len() && sheet[place] == sheet[at] && whole_line(sheet, at, end, place)
}

// The row of the name from at up to end.
fn find_row(sheet: &[u8], names: &[usize], at: usize, end: usize) -> Option<usize>
    requires { (at < end) × (end ≤ length sheet.now) }
    ensures { result ≡ position (is_line_of sheet.now at end) names.now }
{
    names
        .iter()
        .position(|&place| is_line(sheet, at, end, place))
}

// The name of row r has been met.
#[tactic(auto, unfolding(crate::specs::Marks::is_marked))]
fn test_mark(marks: &[u8; MOST_NAMES], r: usize) -> bool
    requires { r < 512 }
    ensures { result ≡ is_marked marks.now r }
{
    marks[r] == 1
}

// A tree table as it is read, in lists that are lent: the entries of its nodes, how many nodes are made, and the marks
// of the names met.
#[derive(Drop)]
pub struct Nodes<'a> {
    pub left: &'a mut [u16],
    pub right: &'a mut [u16],
    pub made: usize,
    pub marks: &'a mut [u8; MOST_NAMES],
}

impl<'a> Nodes<'a> {
    // Makes a node of two entries.
    pub fn put_node(&mut self, l: u16, r: u16)
        requires { (self.old.made < length self.old.left.now) × (self.old.made < length self.old.right.now) }
        ensures put { (self.new.left.now ≡ set self.old.left.now self.old.made l)
            × (self.new.right.now ≡ set self.old.right.now self.old.made r)
            × (self.new.made ≡ self.old.made + 1)
            × (self.new.marks.now ≡ self.old.marks.now) }
        ensures same { SameLists self.old self.new }
    {
        self.left[self.made] = l;
        self.right[self.made] = r;
        self.made += 1;
    }

    // The name at a place becomes the next node, a tip: the place after it.
    pub fn read_tip(&mut self, sheet: &[u8], names: &[usize], at: usize) -> Option<usize>
        requires { RoomForNames names.now self.old }
        ensures gives { GivesPlace (tip_of sheet.now names.now (length names.now) self.old.marks.now at)
            self.old result self.new }
        ensures same { SameLists self.old self.new }
    {
        let end = token_end(sheet, at);
        if end == at {
            return None;
        }
        let r = find_row(sheet, names, at, end)?;
        if test_mark(self.marks, r) {
            return None;
        }
        self.marks[r] = 1;
        self.put_node(NO_CHILD, r as u16);
        Some(end)
    }
}
