// A text at the start of a list that is lent: a byte, a text or a number in decimal digits is put at its end.
#![tactic(auto)]

ghost use Rattle.std.specs.Prelude.{◌+◌, ◌-◌, ◌<◌, ◌≤◌, [], ◌∷◌, ◌≡◌, length};
ghost use Rattle.report_text.specs.Decimal.{decimal};
ghost use Rattle.report_text.specs.Mapped.{Mapped};
ghost use Rattle.report_text.specs.Puts.{Puts, text_in, cleared, Fits};
ghost use Rattle.report_text.specs.Starts.{StartsWith};
ghost use Rattle.std.specs.List.{AllZip};

// The first len bytes of the list are the text; those after them are room.
#[derive(Drop)]
pub struct Text<'a> {
    pub len: usize,
    pub list: &'a mut [u8],
}

// A digit as a byte.
fn digit(x: usize) -> u8
    requires { x < 10 }
    ensures { result ≡ 48 + x }
{
    b'0' + x as u8
}

impl<'a> Text<'a> {
    // No text yet, at the start of a list.
    pub fn over(list: &'a mut [u8]) -> Text<'a>
        ensures same { result.list.ghost_name ≡ list.entry.ghost_name }
        ensures text { (result.len ≡ 0) × (result.list.now ≡ list.old) }
    {
        Text { len: 0, list }
    }

    // The text's bytes.
    pub fn as_slice(&self) -> &[u8]
        ensures { result.now ≡ text_in self.now }
    {
        &self.list[..self.len.min(self.list.len())]
    }

    // How many bytes there is room for yet.
    pub fn room(&self) -> usize
        ensures { result ≡ length self.now.list.now - self.now.len }
    {
        self.list.len().saturating_sub(self.len)
    }

    // Takes the text away, for another: its bytes are room again.
    pub fn clear(&mut self)
        ensures { self.new ≡ cleared self.old }
    {
        self.len = 0;
    }

    // Puts a byte.
    pub fn byte(&mut self, byte: u8)
        requires { self.old.len < length self.old.list.now }
        ensures { Puts (byte ∷ []) self.old self.new }
    {
        self.list[self.len] = byte;
        self.len += 1;
    }

    // Puts a text.
    pub fn text(&mut self, text: &[u8])
        requires { Fits text.now self.old }
        ensures { Puts text.now self.old self.new }
    {
        let end = self.len + text.len();
        self.list[self.len..end].copy_from_slice(text);
        self.len = end;
    }

    // Puts what the function makes of each byte of a text.
    pub fn mapped<F: Fn(u8) -> u8>(&mut self, text: &[u8], f: F)
        requires callable { F.IsAlwaysCallable f }
        requires fits { Fits text.now self.old }
        ensures { Mapped (F.post f) text.now self.old self.new }
    {
        let end = self.len + text.len();
        map_bytes(text, f, &mut self.list[self.len..end]);
        self.len = end;
    }

    // Puts the decimal digits of a number.
    pub fn number(&mut self, n: usize)
        requires { Fits (decimal n) self.old }
        ensures { Puts (decimal n) self.old self.new }
    {
        self.len += put_digits(n, &mut self.list[self.len..]);
    }
}

// Writes what the function makes of each byte of a text into a room as long as the text.
fn map_bytes<F: Fn(u8) -> u8>(text: &[u8], f: F, room: &mut [u8])
    requires callable { F.IsAlwaysCallable f }
    requires size { length room.old ≡ length text.now }
    ensures { AllZip (F.post f) text.now room.new }
{
    for (i, byte) in text.iter().enumerate() {
        room[i] = f(*byte);
    }
}

// Writes the decimal digits of a number at the start of a room, and answers how many.
#[tactic(auto, using(crate::proofs::NumberSteps::digits_last, crate::proofs::NumberSteps::digits_tens, crate::proofs::NumberSteps::number_some, crate::proofs::NumberSteps::tens_length))]
fn put_digits(n: usize, room: &mut [u8]) -> usize
    requires { length (decimal n) ≤ length room.old }
    ensures { StartsWith (decimal n) room.old room.new result }
{
    if n < 10 {
        room[0] = digit(n);
        return 1;
    }
    let count = put_digits(n / 10, room);
    room[count] = digit(n % 10);
    count + 1
}
