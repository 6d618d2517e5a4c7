// Labels as letters.
ghost use Rattle.std.specs.Prelude.{◌≡◌, ℕ, length, get_or};
ghost use Rattle.report_text.specs.Puts.{Fits, Puts};
ghost use Rattle.report_marks.specs.Letters.{letter_of, letters};

use report_text::Text;

// The letter of a state.
#[tactic(auto, unfolding(crate::specs::Letters::letter_of))]
fn letter(state: u8) -> u8
    ensures { result ≡ letter_of state }
{
    match state {
        0 => b'A',
        1 => b'C',
        2 => b'G',
        _ => b'T',
    }
}

// Puts the letters of the states.
pub fn put_letters(states: &[u8], text: &mut Text)
    requires { Fits states.now text.old }
    ensures { Puts (letters (λ (v : ℕ). get_or states.now v 0) (length states.now)) text.old text.new }
{
    text.mapped(states, |state| letter(state));
}
