// Texts by lines and words, and the numbers of a line: a cursor by value, and a word as a part of the caller's line.
#![tactic(auto)]

ghost use Rattle.std.specs.Prelude.{◌≡◌, ℕ, Bool, not, ◌+◌, ◌-◌, ◌≤◌, ◌<◌, ◌^◌, length, take, drop};
ghost use Rattle.layout.specs.Text.{blank, words, natural, one_word, two_words, three_words, no_words, blank_line, starts_with, comment_line};
ghost use Rattle.text.specs.Cursor.{in_line, in_word, past, next_line, word_at, next};

use layout::Rules;
use numerals::Number;

// A place in a text or in a line: its byte, and how many lines of the text were passed.
#[derive(Clone, Copy)]
pub struct Cursor {
    pub at: usize,
    pub line: usize,
}

// A line, from its start to its end, and the cursor after it.
#[derive(Clone, Copy)]
pub struct Line {
    pub start: usize,
    pub end: usize,
    pub next: Cursor,
}

// A space or a tab.
pub fn is_blank(x: u8) -> bool
    ensures { result ≡ blank x }
{
    x == b' ' || x == b'\t'
}

// The place of the first byte from `from` on where `stops` holds, or the end of the text.
fn find<F: Fn(u8) -> bool>(s: &[u8], from: usize, stops: F) -> usize
    requires inside { from ≤ length s.now }
    requires callable { F.IsAlwaysCallable stops }
    ensures place { (p : ℕ → Bool) → ((x : ℕ) (b : Bool) → F.post stops x b → p x ≡ not b) → result ≡ past p s.now from }
    ensures bounded { result ≤ length s.now }
{
    for i in from..s.len() {
        if stops(s[i]) {
            return i;
        }
    }
    s.len()
}

// The place of the first byte 10 from `from` on, or the end of the text.
fn line_end(s: &[u8], from: usize) -> usize
    requires { from ≤ length s.now }
    ensures place { result ≡ past in_line s.now from }
    ensures bounded { result ≤ length s.now }
{
    find(s, from, |x| x == b'\n')
}

// The place of the first byte from `from` on that is no blank, or the end of the line.
pub fn skip_blanks(s: &[u8], from: usize) -> usize
    requires { from ≤ length s.now }
    ensures place { result ≡ past blank s.now from }
    ensures bounded { result ≤ length s.now }
{
    find(s, from, |x| !is_blank(x))
}

// The place of the first blank from `from` on, or the end of the line.
fn word_end(s: &[u8], from: usize) -> usize
    requires { from ≤ length s.now }
    ensures place { result ≡ past in_word s.now from }
    ensures bounded { result ≤ length s.now }
{
    find(s, from, is_blank)
}

// The word that begins at a place, as a part of the line; empty where none begins.
pub fn word(line: &[u8], start: usize) -> &[u8]
    requires { start ≤ length line.now }
    ensures part { result.now ≡ word_at line.now start }
    ensures bounded { start + length result.now ≤ length line.now }
{
    let end = word_end(line, start);
    &line[start..end]
}

// No word is left from `from` on.
pub fn no_words(line: &[u8], from: usize) -> bool
    requires { from ≤ length line.now }
    ensures { result ≡ no_words (words (drop from line.now)) }
{
    skip_blanks(line, from) == line.len()
}

// A line that is empty or of blanks only.
pub fn is_blank_line(line: &[u8]) -> bool
    ensures { result ≡ blank_line line.now }
{
    no_words(line, 0)
}

// A line that begins with the byte b.
pub fn starts_with(line: &[u8], b: u8) -> bool
    ensures { result ≡ starts_with b line.now }
{
    !line.is_empty() && line[0] == b
}

// A line that begins with %.
pub fn is_comment(line: &[u8]) -> bool
    ensures { result ≡ comment_line line.now }
{
    starts_with(line, b'%')
}

impl Cursor {
    // The line at the cursor, up to its byte 10 or the end of the text.
    pub fn next_line(self, s: &[u8]) -> Option<Line>
        requires { self.line ≤ self.at }
        ensures { result ≡ next_line s.now self }
    {
        if s.len() <= self.at {
            return None;
        }
        let end = line_end(s, self.at);
        let next = Cursor {
            at: end + 1,
            line: self.line + 1,
        };
        Some(Line {
            start: self.at,
            end,
            next,
        })
    }

    // The next word of the line as a number, and the cursor after it.
    fn next_number<T: Number>(self, line: &[u8], rules: Rules) -> Option<(T, Cursor)>
        requires { self.at ≤ length line.now }
        ensures { result ≡ next (T.spelled rules) line.now self }
    {
        let start = skip_blanks(line, self.at);
        let w = word(line, start);
        let value = T::read(w, rules)?;
        let next = Cursor {
            at: start + w.len(),
            line: self.line,
        };
        Some((value, next))
    }

    // The one number that is left in a line.
    fn last_number<T: Number>(self, line: &[u8], rules: Rules) -> Option<T>
        requires { self.at ≤ length line.now }
        ensures { result ≡ one_word (T.spelled rules) (words (drop self.at line.now)) }
    {
        let (value, next) = self.next_number::<T>(line, rules)?;
        if no_words(line, next.at) {
            Some(value)
        } else {
            None
        }
    }
}

// A line of one number.
pub fn one_number<T: Number>(line: &[u8], rules: Rules) -> Option<T>
    ensures { result ≡ one_word (T.spelled rules) (words line.now) }
{
    let start = Cursor { at: 0, line: 0 };
    start.last_number::<T>(line, rules)
}

// A line of two sizes or indices.
pub fn two_naturals(line: &[u8], rules: Rules) -> Option<(u32, u32)>
    ensures { result ≡ two_words (natural rules) (natural rules) (words line.now) }
{
    let start = Cursor { at: 0, line: 0 };
    let (a, second) = start.next_number::<u32>(line, rules)?;
    let b = second.last_number::<u32>(line, rules)?;
    Some((a, b))
}

// The line of a text from `start` to `end`, of two sizes or indices. Loops call this with the whole text: a part that is made for a call goes through memory.
pub fn two_naturals_in(text: &[u8], start: usize, end: usize, rules: Rules) -> Option<(u32, u32)>
    requires { (start ≤ end) × (end ≤ length text.now) }
    ensures { result ≡ two_words (natural rules) (natural rules) (words (take (end - start) (drop start text.now))) }
{
    two_naturals(&text[start..end], rules)
}

// A line of two sizes or indices and a number: three sizes, or an edge with its row, its column and its weight.
pub fn three_numbers<T: Number>(line: &[u8], rules: Rules) -> Option<(u32, u32, T)>
    ensures { result ≡ three_words (natural rules) (natural rules) (T.spelled rules) (words line.now) }
{
    let start = Cursor { at: 0, line: 0 };
    let (a, second) = start.next_number::<u32>(line, rules)?;
    let (b, third) = second.next_number::<u32>(line, rules)?;
    let c = third.last_number::<T>(line, rules)?;
    Some((a, b, c))
}

// The same of the line of a text from `start` to `end`, for loops.
pub fn three_numbers_in<T: Number>(
    text: &[u8],
    start: usize,
    end: usize,
    rules: Rules,
) -> Option<(u32, u32, T)>
    requires { (start ≤ end) × (end ≤ length text.now) }
    ensures { result ≡ three_words (natural rules) (natural rules) (T.spelled rules) (words (take (end - start) (drop start text.now))) }
{
    three_numbers::<T>(&text[start..end], rules)
}
