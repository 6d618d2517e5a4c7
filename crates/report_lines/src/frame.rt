// The report's other lines, each with its line end: the number of columns, the total, and the line of a refused sheet.
ghost use Rattle.std.specs.Prelude.{◌≡◌, ◌+◌, ◌≤◌, length};
ghost use Rattle.report_text.specs.Puts.{Fits, Puts};
ghost use Rattle.report_text.specs.Starts.{StartsWith};
ghost use Rattle.report_lines.specs.Frame.{word_line, number_line, columns_line, total_line, refused_line};

use report_text::Text;
use sheet_lines::{LINE_END, SPACE};
use std::marker::Model;

// None of these lines is longer.
pub const MOST_FRAME: usize = 64;

// One of these lines: the first len bytes.
#[derive(Drop)]
pub struct Frame {
    len: usize,
    bytes: [u8; MOST_FRAME],
}

// Clauses see the line's bytes.
impl Model for Frame {
    ghost use Rattle.std.specs.Prelude.{List, ℕ, ◌≤◌, take};

    ghost Value = { List ℕ };

    ghost view = { λ f. take f.len f.bytes };

    ghost invariant = { λ f. f.len ≤ 64 };
}

impl Frame {
    // The line's bytes.
    pub fn as_slice(&self) -> &[u8]
        ensures { result.now ≡ self.now }
    {
        &self.bytes[..self.len]
    }
}

// Puts a word and a number.
#[tactic(auto, using(std::proofs::lemmas::Grind::common_steps, crate::proofs::LineSteps::put_word_steps))]
fn put_word(word: &[u8], n: usize, line: &mut Text)
    requires { Fits (word_line word.now n) line.old }
    ensures { Puts (word_line word.now n) line.old line.new }
{
    line.text(word);
    line.number(n);
}

// Writes the line of a word and a number at the start of a list, and answers its length.
#[tactic(auto, using(std::proofs::lemmas::Grind::common_steps, crate::proofs::LineLaws::number_line_length))]
fn put_number_line(word: &[u8], n: usize, line: &mut [u8]) -> usize
    requires { length (number_line word.now n) ≤ length line.old }
    ensures { StartsWith (number_line word.now n) line.old line.new result }
{
    let mut text = Text::over(line);
    put_word(word, n, &mut text);
    text.byte(LINE_END);
    text.len
}

// The line of a word and a number.
#[tactic(auto, using(crate::proofs::LineLaws::number_line_most, crate::proofs::LineSteps::started))]
fn number_line(word: &[u8], n: usize) -> Frame
    requires { length word.now + 21 ≤ 64 }
    ensures { result ≡ number_line word.now n }
{
    let mut bytes = [0; MOST_FRAME];
    let len = put_number_line(word, n, &mut bytes);
    Frame { len, bytes }
}

// The line with the number of columns.
#[tactic(auto, unfolding(crate::specs::Frame::columns_line, sheet_lines::specs::Bytes::bytes))]
pub fn columns_line(c: usize) -> Frame
    ensures { result ≡ columns_line c }
{
    number_line(b"columns ", c)
}

// The line with the total.
#[tactic(auto, unfolding(crate::specs::Frame::total_line, sheet_lines::specs::Bytes::bytes))]
pub fn total_line(total: usize) -> Frame
    ensures { result ≡ total_line total }
{
    number_line(b"total ", total)
}

// Writes the line of a refused sheet at the start of a list, and answers its length.
#[tactic(auto, using(std::proofs::lemmas::Grind::common_steps, crate::proofs::LineLaws::refused_length))]
fn put_refused_line(number: usize, place: usize, line: &mut [u8]) -> usize
    requires { length (refused_line number place) ≤ length line.old }
    ensures { StartsWith (refused_line number place) line.old line.new result }
{
    let mut text = Text::over(line);
    put_word(b"refused ", number, &mut text);
    text.byte(SPACE);
    text.number(place);
    text.byte(LINE_END);
    text.len
}

// The line of a refused sheet, with the refusal's number and the sheet's line.
#[tactic(auto, using(crate::proofs::LineLaws::refused_most, crate::proofs::LineSteps::started))]
pub fn refused_line(number: usize, place: usize) -> Frame
    ensures { result ≡ refused_line number place }
{
    let mut bytes = [0; MOST_FRAME];
    let len = put_refused_line(number, place, &mut bytes);
    Frame { len, bytes }
}
