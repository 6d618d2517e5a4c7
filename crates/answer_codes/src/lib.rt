// Answers as numbers: the one number that a call returns for its answer, and the start that a number stands for. The
// low 8 bits are the number of the paper's list; above them stands what it carries.
#![tactic(auto)]

ghost use Rattle.std.specs.Prelude.{◌≡◌, ◌<◌, ◌≤◌};
ghost use Rattle.promises.specs.Answers.{carried_by};
ghost use Rattle.answer_codes.specs.Codes.{answer_code, fault_code, start_of};
ghost use Rattle.sheet_lines.specs.Fault.{fault_line};

use promises::Refusal;
use sheet_lines::Fault;

// Stands for no start.
pub const NO_START: u64 = 18446744073709551615;

// A refusal's number and, for SHAPE, its node.
pub fn refusal_code(refusal: Refusal) -> u64
    requires { carried_by (Err refusal) < 72057594037927936 }
    ensures { result ≡ answer_code (Err refusal) }
{
    match refusal {
        Refusal::Size => 1,
        Refusal::Shape(v) => 2 + 256 * (v as u64),
        Refusal::Costs => 3,
        Refusal::Cells => 4,
        Refusal::Rows => 5,
        Refusal::Which => 6,
        Refusal::NotUnit => 7,
        Refusal::Room => 8,
    }
}

// An answer's number and what it carries.
pub fn code(answer: Result<(), Refusal>) -> u64
    requires { carried_by answer < 72057594037927936 }
    ensures { result ≡ answer_code answer }
{
    match answer {
        Ok(()) => 0,
        Err(refusal) => refusal_code(refusal),
    }
}

// The start that a number stands for.
#[tactic(auto, using(crate::proofs::StartLaws::start_none, crate::proofs::StartLaws::start_given))]
pub fn start_of(x: u64) -> Option<usize>
    ensures { result ≡ start_of x }
{
    if x == NO_START {
        return None;
    }
    Some(x as usize)
}

// A fault's number and its line.
pub fn fault_code(fault: Fault) -> u64
    requires { fault_line fault ≤ 65536 }
    ensures { result ≡ fault_code fault }
{
    match fault {
        Fault::Sheet(line) => 9 + 256 * (line as u64),
        Fault::Symbol(line) => 10 + 256 * (line as u64),
        Fault::TreeText(line) => 11 + 256 * (line as u64),
    }
}
