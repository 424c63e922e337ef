// A text that is written to a lent output, where there is room for it.
ghost use Rattle.std.specs.Prelude.{◌≡◌, [], ◌∷◌, ◌+◌, ◌≤◌, ◌<◌, length};
ghost use Rattle.msf.specs.Text.{glyph, decimal, float_text};
ghost use Rattle.msf.specs.Inner.Appending.{Appends};

// The bytes before index at have been written. There is no heap for a String.
#[derive(Drop)]
pub struct Text<'a> {
    pub out: &'a mut [u8],
    pub at: usize,
}

// The byte of a digit in any base up to 16. Numbers are not printed by `write!`: that answers an error, and here the room is proved.
fn glyph(digit: u32) -> u8
    requires in_base { digit < 16 }
    ensures { result ≡ glyph digit }
{
    char::from_digit(digit, 16).unwrap() as u8
}

impl<'a> Text<'a> {
    pub fn new(out: &'a mut [u8]) -> Text<'a>
        ensures same_output { result.out.ghost_name ≡ out.entry.ghost_name }
        ensures same_bytes { result.out.now ≡ out.old }
        ensures start { result.at ≡ 0 }
    {
        Text { out, at: 0 }
    }

    pub fn put_byte(&mut self, byte: u8)
        requires room { self.old.at + 1 ≤ length self.old.out.now }
        ensures { Appends self.old self.new (byte ∷ []) }
    {
        self.out[self.at] = byte;
        self.at += 1;
    }

    pub fn put_bytes(&mut self, bytes: &[u8])
        requires room { self.old.at + length bytes.now ≤ length self.old.out.now }
        ensures { Appends self.old self.new bytes.now }
    {
        let end = self.at + bytes.len();
        self.out[self.at..end].copy_from_slice(bytes);
        self.at = end;
    }

    // A digit in any base up to 16.
    pub fn put_digit(&mut self, digit: u32)
        requires in_base { digit < 16 }
        requires room { self.old.at + 1 ≤ length self.old.out.now }
        ensures { Appends self.old self.new (glyph digit ∷ []) }
    {
        self.put_byte(glyph(digit));
    }

    // The 16 digits of a float's bits in base 16; a NaN's bits are not asked for.
    pub fn put_float(&mut self, x: f64)
        requires room { self.old.at + 16 ≤ length self.old.out.now }
        ensures at_most { self.new.at ≤ self.old.at + 16 }
        ensures appended { Appends self.old self.new (float_text x) }
    {
        if x.is_nan() {
            return self.put_bytes(b"nan");
        }
        let bits = x.to_bits();
        let mut digits = [0u8; 16]; // put at once, since each byte that is put alone loads and stores the text's fields
        for k in 0..16usize {
            digits[k] = glyph(((bits >> (60 - 4 * k)) % 16) as u32);
        }
        self.put_bytes(&digits);
    }

    // A number in base 10.
    pub fn put_decimal(&mut self, v: u32)
        requires room { self.old.at + length (decimal v) ≤ length self.old.out.now }
        ensures { Appends self.old self.new (decimal v) }
    {
        if v < 10 {
            return self.put_digit(v);
        }
        self.put_decimal(v / 10);
        self.put_digit(v % 10);
    }
}
