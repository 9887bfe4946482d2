// What a word is as a number: a size or an index, and an integer with a sign.
#![tactic(auto)]

ghost use Rattle.std.specs.Prelude.{◌≡◌, ℕ, [], List, Option, None, pos, neg_ℤ, option_map};
ghost use Rattle.layout.specs.Text.{numeral, natural, integer};
ghost use Rattle.layout.specs.declared.Rules.{Rules};
ghost use Rattle.numerals.specs.Numerals.{NineDigits, natural_empty, integer_empty};

use layout::Rules;

// How many digits a number has at most.
const MOST_DIGITS: usize = 9;

// A number that a word spells by the rules, or does not.
pub trait Number: Copy {
    ghost spelled: { Rules → List ℕ → Option Self };

    // The word as a number.
    fn read(word: &[u8], rules: Rules) -> Option<Self>
        ensures { result ≡ spelled rules word.now };

    // A word of no bytes spells none.
    ghost empty: { (rules : Rules) → spelled rules [] ≡ None };
}

// A size or an index.
impl Number for u32 {
    ghost spelled = { natural };

    ghost empty = { natural_empty };

    fn read(word: &[u8], rules: Rules) -> Option<u32> {
        read_natural(word, rules)
    }
}

// A number with a sign or none.
impl Number for i32 {
    ghost spelled = { integer };

    ghost empty = { integer_empty };

    fn read(word: &[u8], rules: Rules) -> Option<i32> {
        read_integer(word, rules)
    }
}

// 1 to 9 digits, as the number that they make.
fn read_numeral(w: &[u8]) -> Option<u32>
    ensures { result ≡ numeral w.now }
{
    if w.is_empty() || w.len() > MOST_DIGITS {
        return None;
    }
    let mut n = 0;
    for d in w {
        if !d.is_ascii_digit() {
            return None;
        }
        n = n * 10 + u32::from(*d - b'0');
    }
    Some(n)
}

// A size or an index: 1 to 9 digits, and a leading zero only by the old rules.
pub fn read_natural(w: &[u8], rules: Rules) -> Option<u32>
    ensures { result ≡ natural rules w.now }
{
    if spelling::is_zero_refused(w, rules) {
        return None;
    }
    read_numeral(w)
}

// A number that was read, with the sign + or none, and with the sign -.
fn plus(n: Option<u32>) -> Option<i32>
    requires { NineDigits n }
    ensures { result ≡ option_map pos n }
{
    Some(n? as i32)
}

fn minus(n: Option<u32>) -> Option<i32>
    requires { NineDigits n }
    ensures { result ≡ option_map (λ k. neg_ℤ (pos k)) n }
{
    Some(-(n? as i32))
}

// A number written as a merit is: a size, or one after a sign.
pub fn read_integer(w: &[u8], rules: Rules) -> Option<i32>
    ensures { result ≡ integer rules w.now }
{
    match w {
        [] => None,
        [b'+', rest @ ..] => plus(spelling::after_plus(read_natural(rest, rules), rules)),
        [b'-', rest @ ..] => minus(spelling::after_minus(read_natural(rest, rules), rules)),
        _ => plus(read_natural(w, rules)),
    }
}
