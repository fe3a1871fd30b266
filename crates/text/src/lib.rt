// Bytes and numbers as text in a lent buffer.
#![tactic(auto)]

ghost use Rattle.std.specs.Prelude.{◌≡◌, [], ◌∷◌, ◌<◌};
ghost use Rattle.text.specs.Text.{digit, hex, decimal};
ghost use Rattle.text.specs.Wrote.{Wrote};

// Writes a text from front to back. What does not fit is left out, and counted.
#[derive(Drop)]
pub struct Writer<'a> {
    text: &'a mut [u8],
    at: usize,
}

impl<'a> Writer<'a> {
    // Goes on at a position of a text.
    pub fn new(text: &'a mut [u8], at: usize) -> Writer<'a>
        ensures same_reference { result.text.ghost_name ≡ text.entry.ghost_name }
        ensures same_text { result.text.now ≡ text.old }
        ensures position { result.at ≡ at }
    {
        Writer { text, at }
    }

    // The position behind what was written.
    pub fn position(&self) -> usize
        ensures { result ≡ self.now.at }
    {
        self.at
    }

    pub fn put(&mut self, byte: u8)
        ensures { Wrote (byte ∷ []) self.old self.new }
    {
        if self.at < self.text.len() {
            self.text[self.at] = byte;
        }
        self.at = self.at.saturating_add(1);
    }

    pub fn put_all(&mut self, bytes: &[u8])
        ensures { Wrote bytes.now self.old self.new }
    {
        for byte in bytes {
            self.put(*byte);
        }
    }

    // stays: std's `write!` promises the text only where it answers `Ok`, and no clause of it says that it does, while
    // `Wrote` holds always
    pub fn put_decimal(&mut self, n: usize)
        ensures { Wrote (decimal n) self.old self.new }
    {
        if n < 10 {
            self.put(digit(n));
            return;
        }
        self.put_decimal(n / 10);
        self.put(digit(n % 10));
    }

    // The last hexadecimal digits of a number, as many as `digits`.
    // stays: as above; the first digits go first, for which a loop over `digits` needs powers of 16
    pub fn put_hex(&mut self, digits: usize, n: usize)
        ensures { Wrote (hex digits n) self.old self.new }
    {
        if digits == 0 {
            return;
        }
        self.put_hex(digits - 1, n / 16);
        self.put(digit(n % 16));
    }
}

// stays: `char::from_digit` answers an `Option<char>`, which is taken out and cast
pub fn digit(d: usize) -> u8
    requires { d < 16 }
    ensures { result ≡ digit d }
{
    let d = d as u8;
    if d < 10 { b'0' + d } else { b'a' - 10 + d }
}
