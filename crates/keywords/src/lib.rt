// The words of a line that are fixed: a first word, whose case is kept, and words in either case.
#![tactic(auto)]

ghost use Rattle.std.specs.Prelude.{◌≡◌, ◌≤◌, [], length, drop, map, MatchOption};
ghost use Rattle.layout.specs.Text.{words, lower, same, begins};
ghost use Rattle.keywords.specs.Keywords.{within, WordAt, KeyTaken, FirstWord};

// The word w is k.
pub fn same_word(w: &[u8], k: &[u8]) -> bool
    ensures { result ≡ same w.now k.now }
{
    w == k
}

// The word w, its case folded, is k.
pub fn same_folded(w: &[u8], k: &[u8]) -> bool
    ensures { result ≡ same (map lower w.now) k.now }
{
    w.len() == k.len() && w.iter().zip(k).all(|(x, y)| x.to_ascii_lowercase() == *y)
}

// The next word from a place on, and the place after it.
fn next_word(line: &[u8], at: usize) -> Option<(&[u8], usize)>
    requires { at ≤ length line.now }
    ensures { MatchOption result
        (words (drop at line.now) ≡ [])
        (λ found. WordAt line.now at found.0.now found.1) }
{
    let start = text::skip_blanks(line, at);
    let w = text::word(line, start);
    if w.is_empty() {
        return None;
    }
    Some((w, start + w.len()))
}

// The word k, its case folded, comes next.
pub fn keyword(line: &[u8], from: Option<usize>, k: &[u8]) -> Option<usize>
    requires { within line.now from }
    ensures { KeyTaken line.now from k.now result }
{
    let at = from?;
    let (w, end) = next_word(line, at)?;
    same_folded(w, k).then_some(end)
}

// The first word of a line is k, its case kept.
pub fn first_word(line: &[u8], k: &[u8]) -> Option<usize>
    ensures { FirstWord line.now k.now result }
{
    let (w, end) = next_word(line, 0)?;
    same_word(w, k).then_some(end)
}

// The first word begins the line.
pub fn word_first(line: &[u8]) -> bool
    ensures { result ≡ begins line.now }
{
    !line.is_empty() && !text::is_blank(line[0])
}
