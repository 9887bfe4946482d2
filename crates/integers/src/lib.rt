// The machine's signed arithmetic, whose contracts give each result as an integer; tests put together, and a number picked by one.
#![tactic(auto)]

ghost use Rattle.std.specs.Prelude.{◌≡◌, cond, ◌&&◌, ◌||◌, ◌+◌, ◌^◌, ◌<◌, ◌≤◌, length, get_or, set, pos, ◌+ℤ◌, ◌-ℤ◌, ◌*ℤ◌, ◌≤ℤ◌};
ghost use Rattle.std.specs.Int.Signed.{le_z};
ghost use Rattle.integers.specs.Integer.{up, dn, Within};

// The sum of two numbers that are not too large.
pub fn add(a: i64, b: i64) -> i64
    requires { Within (2 ^ 61) a × Within (2 ^ 61) b }
    ensures { result ≡ a +ℤ b }
{
    a + b
}

// The difference of two numbers that are not too large.
pub fn subtract(a: i64, b: i64) -> i64
    requires { Within (2 ^ 61) a × Within (2 ^ 61) b }
    ensures { result ≡ a -ℤ b }
{
    a - b
}

// A number taken k times, where the product is not too large.
pub fn scale(k: u32, x: i64) -> i64
    requires { Within (2 ^ 62) (pos k *ℤ x) }
    ensures { result ≡ pos k *ℤ x }
{
    i64::from(k) * x
}

// A number where the mark is 1, and 0 where it is 0.
pub fn if_chosen(mark: u8, x: i64) -> i64
    requires { mark ≤ 1 }
    ensures { (result ≡ pos mark *ℤ x) × Within (up x + dn x) result }
{
    if mark == 1 { x } else { 0 }
}

// Whether a is at most b.
pub fn at_most(a: i64, b: i64) -> bool
    ensures { result ≡ le_z a b }
{
    a <= b
}

// A number that is not negative, as a natural number.
pub fn natural(x: i32) -> u32
    requires { pos 0 ≤ℤ x }
    ensures { (pos result ≡ x) × (result ≡ up x) }
{
    x as u32
}

// The element of w at p, as a number of 64 bits.
pub fn element(w: &[i32], p: usize) -> i64
    requires { p < length w.now }
    ensures { (result ≡ get_or w.now p (pos 0)) × Within (2 ^ 31) result }
{
    i64::from(w[p])
}

// A number that is not negative, and 0 for one that is.
pub fn natural_part(x: i32) -> u32
    ensures { result ≡ up x }
{
    x.max(0) as u32
}

// The element of w at p, and 0 where it is negative.
pub fn natural_at(w: &[i32], p: usize) -> u32
    requires { p < length w.now }
    ensures { result ≡ up (get_or w.now p (pos 0)) }
{
    natural_part(w[p])
}

// Whether both tests hold.
pub fn both(a: bool, b: bool) -> bool
    ensures { result ≡ (a && b) }
{
    a && b
}

// Whether one of two tests holds.
pub fn either(a: bool, b: bool) -> bool
    ensures { result ≡ (a || b) }
{
    a || b
}

// One of two numbers, by a test.
pub fn pick(test: bool, a: u32, b: u32) -> u32
    ensures { result ≡ cond test a b }
{
    if test { a } else { b }
}

// Sets the number at k of a list of integers to a natural number.
pub fn put_natural(out: &mut [i32], k: usize, n: u32)
    requires { (k < length out.old) × (n < 2 ^ 31) }
    ensures { out.new ≡ set out.old k (pos n) }
{
    out[k] = n as i32;
}
