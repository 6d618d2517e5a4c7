// The names of a sheet: 1 to 32 letters, digits, `_`, `.` and `-`, all different.
#![tactic(auto)]

ghost use Rattle.std.specs.Prelude.{[], ◌≡◌, ◌≤◌, length, drop};
ghost use Rattle.sheet_lines.specs.Counting.{GivesCount};
ghost use Rattle.sheet_lines.specs.Section.{GivesSection, placed, section};
ghost use Rattle.sheet_names.specs.Name.{is_name_byte, is_name, same_text};
ghost use Rattle.std.specs.List.{list_all, list_any};
ghost use Rattle.sheet_names.specs.Names.{name_of, names_of};

use sheet_lines::{Fault, LINE_END, MOST_NAMES, line_end, read_count, rest_from};

// The byte is a letter, a digit, `_`, `.` or `-`.
#[tactic(auto, using(crate::proofs::NameSteps::name_byte_yes, crate::proofs::NameSteps::name_byte_no))]
pub fn name_byte(byte: u8) -> bool
    ensures { result ≡ is_name_byte byte }
{
    byte.is_ascii_alphanumeric() || b"_.-".contains(&byte)
}

// Every byte may stand in a name.
fn name_bytes(text: &[u8]) -> bool
    ensures { result ≡ list_all is_name_byte text.now }
{
    text.iter().all(|&byte| name_byte(byte))
}

// The text is a name.
#[tactic(auto, using(crate::proofs::NameSteps::name_short, crate::proofs::NameSteps::name_long, crate::proofs::NameSteps::name_fits))]
fn is_name(text: &[u8]) -> bool
    ensures { result ≡ is_name text.now }
{
    if text.is_empty() || 32 < text.len() {
        return false;
    }
    name_bytes(text)
}

// The lines that two texts start with are the same, up to and with their ends.
// A walk of both: `starts_with` of a line and its end was tried, and 512 names were read a tenth slower.
#[tactic(auto, using(crate::proofs::NameSteps::same_on, crate::proofs::NameSteps::same_end, crate::proofs::NameSteps::same_other))]
fn same_text(one: &[u8], other: &[u8]) -> bool
    ensures { result ≡ same_text one.now other.now }
{
    for (&a, &b) in one.iter().zip(other) {
        if a != b {
            return false;
        }
        if a == LINE_END {
            return true;
        }
    }
    false
}

// The line at a place is the same as one of the earlier lines.
fn is_old(sheet: &[u8], earlier: &[usize], at: usize) -> bool
    ensures { result ≡ list_any (λ place. same_text (drop place sheet.now) (drop at sheet.now)) earlier.now }
{
    let line = rest_from(sheet, at);
    earlier
        .iter()
        .any(|&place| same_text(rest_from(sheet, place), line))
}

// The name line at a place, after the earlier names: the place of the next line.
#[tactic(auto, using(sheet_lines::proofs::LineLaws::line_from, sheet_lines::proofs::LineLaws::line_inside, crate::proofs::NameSteps::name_no_line), unfolding(sheet_lines::specs::Section::placed))]
fn read_name(sheet: &[u8], earlier: &[usize], at: usize, line: usize) -> Result<usize, Fault>
    ensures { placed at result ≡ name_of sheet.now earlier.now at line }
{
    let end = line_end(sheet, at).ok_or(Fault::Sheet(line))?;
    if !is_name(&sheet[at..end]) {
        return Err(Fault::Sheet(line));
    }
    if is_old(sheet, earlier, at) {
        return Err(Fault::Sheet(line));
    }
    Ok(end + 1)
}

// The t name lines from a place on: the place of the next line. The place of each name goes into names.
fn read_names(
    sheet: &[u8],
    t: usize,
    at: usize,
    line: usize,
    names: &mut [usize],
) -> Result<usize, Fault>
    requires { (t ≤ 512) × (t ≤ length names.old) × (line ≤ 100000) }
    ensures { GivesSection (section (name_of sheet.now) t at line []) result
        names.old names.new }
{
    let mut place = at;
    for i in 0..t {
        let next = read_name(sheet, &names[..i], place, line + i)?;
        names[i] = place;
        place = next;
    }
    Ok(place)
}

// The section of the names: its count line on a line, and the names. The count, and the place of the next line.
pub fn names_section(
    sheet: &[u8],
    at: usize,
    line: usize,
    names: &mut [usize],
) -> Result<(usize, usize), Fault>
    requires { (512 ≤ length names.old) × (line ≤ 65535) }
    ensures { GivesCount (names_of sheet.now at line) result names.old names.new }
{
    let (t, next) = read_count(sheet, at, line, b"names ", 1, MOST_NAMES)?;
    let end = read_names(sheet, t, next, line + 1, names)?;
    Ok((t, end))
}
