// Bits of rows of 64-bit words.
#![tactic(auto)]

ghost use Rattle.std.specs.Prelude.{◌+◌, ◌*◌, ◌-◌, ◌/◌, ◌%◌, ◌^◌, ◌≤◌, ◌<◌, ◌≡◌, length};
ghost use Rattle.integers.specs.Sum.{sum};
ghost use Rattle.graph.specs.Graph.{some?};
ghost use Rattle.dual.specs.Sets.{bit, one};
ghost use Rattle.bits.specs.Word.{bit_of};

// The bits of a word.
const WORD_BITS: usize = 64;

// Bit i of the words from word from on.
pub fn bit_at(words: &[u64], from: usize, i: usize) -> bool
    requires { from + i / 64 < length words.now }
    ensures { result ≡ bit words.now (64 * from + i) }
{
    (words[from + i / WORD_BITS] >> (i % WORD_BITS)) & 1 == 1
}

// The low k bits of a word.
fn low(word: u64, k: u64) -> u64
    ensures { result ≡ word % 2 ^ k }
{
    if k < WORD_BITS as u64 {
        word & ((1 << k) - 1)
    } else {
        word
    }
}

// Whether a bit of the word is set from bit k on.
fn above(word: u64, k: u64) -> bool
    ensures { result ≡ some? (64 - k) (λ j. bit_of word (k + j)) }
{
    if k < WORD_BITS as u64 {
        word >> k != 0
    } else {
        false
    }
}

// How many of the first k bits are left after i words.
fn left(k: u64, i: usize) -> u64
    requires { i ≤ 16 }
    ensures { result ≡ k - 64 * i }
{
    k.saturating_sub((WORD_BITS * i) as u64)
}

// How many of the first k bits of the count words at from are set, counted word by word; what is above them is masked.
pub fn ones(words: &[u64], from: usize, count: usize, k: u64) -> u32
    requires { (from + count ≤ length words.now) × (count ≤ 16) × (k ≤ 64 * count) }
    ensures { (result ≡ sum k (λ j. one (bit words.now (64 * from + j)))) × (result ≤ k) }
{
    let mut total = 0;
    for i in 0..count {
        total += low(words[from + i], left(k, i)).count_ones();
    }
    total
}

// Whether a bit of the count words at from is set from bit k on, tested word by word; what is below is masked.
pub fn any_from(words: &[u64], from: usize, count: usize, k: u64) -> bool
    requires { (from + count ≤ length words.now) × (count ≤ 16) }
    ensures { result ≡ some? (64 * count - k) (λ j. bit words.now (64 * from + (k + j))) }
{
    for i in 0..count {
        if above(words[from + i], left(k, i)) {
            return true;
        }
    }
    false
}
