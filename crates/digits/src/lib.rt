// Writes numbers in decimal.
#![tactic(auto)]

ghost use Rattle.std.specs.Prelude.{◌+◌, ◌≤◌, ◌≡◌, [], ◌∷◌, ◌++◌, length, replicate};
ghost use Rattle.layout.specs.Text.{decimal, signed};
ghost use Rattle.digits.specs.Puts.{Puts};
ghost use Rattle.digits.specs.Appends.{Appends};

// Writes the digits of n at the start of `out`, with no leading zero. The result is their number.
pub fn put_number(out: &mut [u8], n: u64) -> usize
    requires { 20 ≤ length out.old }
    ensures { Puts out.old 0 (decimal n) out.new result }
{
    if n < 10 {
        out[0] = b'0' + (n as u8);
        return 1;
    }
    let k = put_number(out, n / 10);
    out[k] = b'0' + ((n % 10) as u8);
    k + 1
}

// Bytes that are lent, and the place in them from which on the next are written.
#[derive(Drop)]
pub struct Writer<'a> {
    pub out: &'a mut [u8],
    pub at: usize,
}

impl<'a> Writer<'a> {
    // A writer at the start of bytes that it clears.
    pub fn cleared(out: &'a mut [u8]) -> Writer<'a>
        ensures same { result.out.ghost_name ≡ out.entry.ghost_name }
        ensures zeros { result.out.now ≡ replicate (length out.old) 0 }
        ensures start { result.at ≡ 0 }
    {
        filling::fill(out, 0);
        Writer { out, at: 0 }
    }

    // Writes one byte.
    pub fn byte(&mut self, b: u8)
        requires { self.old.at + 1 ≤ length self.old.out.now }
        ensures { Appends self.old (b ∷ []) self.new }
    {
        self.out[self.at] = b;
        self.at += 1;
    }

    // Writes the bytes b.
    pub fn bytes(&mut self, b: &[u8])
        requires { self.old.at + length b.now ≤ length self.old.out.now }
        ensures { Appends self.old b.now self.new }
    {
        let end = self.at + b.len();
        self.out[self.at..end].copy_from_slice(b);
        self.at = end;
    }

    // Writes the digits of n.
    pub fn decimal(&mut self, n: u64)
        requires { self.old.at + 20 ≤ length self.old.out.now }
        ensures written { Appends self.old (decimal n) self.new }
        ensures within { self.new.at ≤ self.old.at + 20 }
    {
        self.at += put_number(&mut self.out[self.at..], n);
    }

    // Writes the digits of n, and one byte after them.
    pub fn field(&mut self, n: u64, byte: u8)
        requires { self.old.at + 21 ≤ length self.old.out.now }
        ensures written { Appends self.old (decimal n ++ (byte ∷ [])) self.new }
        ensures within { self.new.at ≤ self.old.at + 21 }
    {
        self.decimal(n);
        self.byte(byte);
    }

    // Writes z, with - before a number below 0.
    pub fn signed(&mut self, z: i64)
        requires { self.old.at + 21 ≤ length self.old.out.now }
        ensures written { Appends self.old (signed z) self.new }
        ensures within { self.new.at ≤ self.old.at + 21 }
    {
        let below = z < 0;
        if below {
            self.byte(b'-');
        }
        self.decimal(z.unsigned_abs());
    }
}
