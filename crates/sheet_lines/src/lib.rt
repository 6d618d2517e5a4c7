// The lines of a sheet: its bytes and line ends, words, numbers and count lines.
#![tactic(auto)]

ghost use Rattle.std.specs.Prelude.{◌≡◌, ◌≤◌, length, drop};
ghost use Rattle.sheet_lines.specs.Bytes.{within};
ghost use Rattle.sheet_lines.specs.Count.{count_of};
ghost use Rattle.sheet_lines.specs.Line.{line_end};
ghost use Rattle.sheet_lines.specs.Number.{digits_of, number_at, field_of};
ghost use Rattle.sheet_lines.specs.Word.{word_of};

// What is wrong with a sheet, and the line that it is found on.
#[derive(Clone, Copy)]
pub enum Fault {
    Sheet(usize),
    Symbol(usize),
    TreeText(usize),
}

// The byte that ends a line.
pub const LINE_END: u8 = 10;

// The byte that parts a word from its number, and the numbers of a line.
pub const SPACE: u8 = 32;

// How many names a sheet may have.
pub const MOST_NAMES: usize = 512;

// The byte is least to most.
#[tactic(auto, unfolding(crate::specs::Bytes::within, parsimony::specs::Test::both))]
pub fn byte_within(byte: u8, least: u8, most: u8) -> bool
    ensures { result ≡ within least most byte }
{
    least <= byte && byte <= most
}

// The end of the line that starts at a place: its byte 10, where all bytes before it are 32 to 126.
#[tactic(auto, using(crate::proofs::LineSteps::line_stop, crate::proofs::LineSteps::line_on, crate::proofs::LineSteps::line_bad, crate::proofs::LineSteps::line_past))]
pub fn line_end(sheet: &[u8], at: usize) -> Option<usize>
    ensures { result ≡ line_end sheet.now at }
{
    for i in at..sheet.len() {
        if sheet[i] == LINE_END {
            return Some(i);
        }
        if !byte_within(sheet[i], 32, 126) {
            return None;
        }
    }
    None
}

// The sheet from a place on: nothing, where the place is past its end.
pub fn rest_from(sheet: &[u8], at: usize) -> &[u8]
    ensures { result.now ≡ drop at sheet.now }
{
    &sheet[at.min(sheet.len())..]
}

// The place after the word, where the sheet has the word at a place.
#[tactic(auto, using(crate::proofs::WordSteps::word_starts, crate::proofs::WordSteps::word_other))]
pub fn word_end(sheet: &[u8], at: usize, word: &[u8]) -> Option<usize>
    ensures { result ≡ word_of word.now sheet.now at }
{
    if rest_from(sheet, at).starts_with(word) {
        Some(at + word.len())
    } else {
        None
    }
}

// The number that the digits from a place on make after a value, if it is at most most.
#[tactic(auto, using(crate::proofs::NumberSteps::digits_over, crate::proofs::NumberSteps::digits_stop, crate::proofs::NumberSteps::digits_on, crate::proofs::NumberSteps::digits_end, crate::proofs::ByteLaws::digit_within))]
fn more_digits(sheet: &[u8], at: usize, start: usize, most: usize) -> Option<(usize, usize)>
    requires { (at ≤ length sheet.now) × (start ≤ 9) × (most ≤ 65535) }
    ensures { result ≡ digits_of most sheet.now start at }
{
    let mut value = start;
    for i in at..sheet.len() {
        if most < value {
            return None;
        }
        if !sheet[i].is_ascii_digit() {
            return Some((value, i));
        }
        value = value * 10 + usize::from(sheet[i] - b'0');
    }
    if most < value {
        return None;
    }
    Some((value, sheet.len()))
}

// The number that starts at a place, with no leading zero, if it is at most most; and the place after it.
#[tactic(auto, using(crate::proofs::NumberSteps::number_past, crate::proofs::NumberSteps::number_zero, crate::proofs::NumberSteps::number_none, crate::proofs::NumberSteps::number_more, crate::proofs::ByteLaws::digit_within))]
pub fn number_at(sheet: &[u8], at: usize, most: usize) -> Option<(usize, usize)>
    requires { most ≤ 65535 }
    ensures { result ≡ number_at most sheet.now at }
{
    let first = *sheet.get(at)?;
    if first == b'0' {
        return Some((0, at + 1));
    }
    if !first.is_ascii_digit() {
        return None;
    }
    more_digits(sheet, at + 1, usize::from(first - b'0'), most)
}

// The number that starts at a place, and the place after the byte stop behind it.
#[tactic(auto, using(crate::proofs::NumberSteps::field_none, crate::proofs::NumberSteps::field_past, crate::proofs::NumberSteps::field_other, crate::proofs::NumberSteps::field_whole))]
pub fn field_at(sheet: &[u8], at: usize, most: usize, stop: u8) -> Option<(usize, usize)>
    requires { most ≤ 65535 }
    ensures { result ≡ field_of most stop sheet.now at }
{
    let (n, next) = number_at(sheet, at, most)?;
    if *sheet.get(next)? != stop {
        return None;
    }
    Some((n, next + 1))
}

// The count of a count line, and the place of the next line: the word, a number from least to most, and the line end.
#[tactic(auto, using(crate::proofs::CountSteps::count_no_word, crate::proofs::CountSteps::count_no_number, crate::proofs::CountSteps::count_few, crate::proofs::CountSteps::count_whole))]
pub fn read_count(
    sheet: &[u8],
    at: usize,
    line: usize,
    word: &[u8],
    least: usize,
    most: usize,
) -> Result<(usize, usize), Fault>
    requires { most ≤ 65535 }
    ensures { result ≡ count_of word.now least most sheet.now at line }
{
    let digits = word_end(sheet, at, word).ok_or(Fault::Sheet(line))?;
    let (n, next) = field_at(sheet, digits, most, LINE_END).ok_or(Fault::Sheet(line))?;
    if n < least {
        return Err(Fault::Sheet(line));
    }
    Ok((n, next))
}
