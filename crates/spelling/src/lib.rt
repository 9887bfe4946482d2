// Which spellings of a number the rules take: leading zeros, and signs.
#![tactic(auto)]

ghost use Rattle.std.specs.Prelude.{◌<◌, ◌≡◌};
ghost use Rattle.layout.specs.Text.{padded, above_zero, value_after_plus, value_after_minus};
ghost use Rattle.spelling.specs.Spelling.{zero_refused};

use layout::Rules;

// A leading zero: the word has two bytes or more, and begins with 0.
fn is_padded(w: &[u8]) -> bool
    ensures { result ≡ padded w.now }
{
    w.len() > 1 && w[0] == b'0'
}

// A leading zero that the rules do not take.
pub fn is_zero_refused(w: &[u8], rules: Rules) -> bool
    ensures { result ≡ zero_refused rules w.now }
{
    match rules {
        Rules::New => is_padded(w),
        Rules::Old => false,
    }
}

// A number after +, which only the old rules take.
pub fn after_plus(n: Option<u32>, rules: Rules) -> Option<u32>
    ensures { result ≡ value_after_plus rules n }
{
    match rules {
        Rules::New => None,
        Rules::Old => n,
    }
}

// A number above 0.
fn above_zero(n: Option<u32>) -> Option<u32>
    ensures { result ≡ above_zero n }
{
    n.filter(|value| *value > 0)
}

// A number after -. Only the old rules take -0.
pub fn after_minus(n: Option<u32>, rules: Rules) -> Option<u32>
    ensures { result ≡ value_after_minus rules n }
{
    match rules {
        Rules::New => above_zero(n),
        Rules::Old => n,
    }
}
