// Writes a text anew: the numbers on the size line and the later lines in the one way, and every other byte as it is.
#![tactic(auto)]

ghost use Rattle.std.specs.Prelude.{◌≡◌, ◌||◌, not, ◌+◌, ◌≤◌, length};
ghost use Rattle.layout.specs.Text.{blank_line, comment_line};
ghost use Rattle.layout.specs.Rewrite.{word_anew, line_anew, text_anew};
ghost use Rattle.digits.specs.Appends.{Appends};
ghost use Rattle.anew.specs.Anew.{byte_at, line_from};

use digits::Writer;
use layout::Rules;
use text::Cursor;

// Room for a number of 32 bits with its sign, and more.
const NUMBER_BYTES: usize = 21;

// Writes a word anew.
fn put_word(w: &mut Writer, word: &[u8])
    requires { w.old.at + length word.now ≤ length w.old.out.now }
    ensures { Appends w.old (word_anew word.now) w.new }
{
    let Some(z) = numerals::read_integer(word, Rules::Old) else {
        w.bytes(word);
        return;
    };
    let mut number = [0u8; NUMBER_BYTES];
    let mut digits = Writer::cleared(&mut number);
    digits.signed(i64::from(z));
    let k = digits.at;
    w.bytes(&number[..k]);
}

// Writes the byte at the place e of s, if there is one.
fn put_byte(w: &mut Writer, s: &[u8], e: usize)
    requires { w.old.at + length (byte_at s.now e) ≤ length w.old.out.now }
    ensures { Appends w.old (byte_at s.now e) w.new }
{
    if e < s.len() {
        w.byte(s[e]);
    }
}

// Writes a line anew: its words, each with the blank after it.
fn put_line(w: &mut Writer, line: &[u8])
    requires { w.old.at + length line.now ≤ length w.old.out.now }
    ensures { Appends w.old (line_anew line.now) w.new }
{
    let mut i = 0;
    while i < line.len() {
        let word = text::word(line, i);
        let e = i + word.len();
        put_word(w, word);
        put_byte(w, line, e);
        i = e + 1;
    }
}

// The numbers have begun: before this line, or with it, since it is neither blank nor a comment.
fn has_begun(before: bool, line: &[u8]) -> bool
    ensures { result ≡ (before || not (blank_line line.now || comment_line line.now)) }
{
    before || !(text::is_blank_line(line) || text::is_comment(line))
}

// Writes a line, anew where the numbers have begun, and else as it is.
fn put_line_from(w: &mut Writer, line: &[u8], begun: bool)
    requires { w.old.at + length line.now ≤ length w.old.out.now }
    ensures { Appends w.old (line_from begun line.now) w.new }
{
    if begun {
        put_line(w, line);
    } else {
        w.bytes(line);
    }
}

// Writes a text anew.
pub fn put_text(w: &mut Writer, s: &[u8])
    requires { w.old.at + length s.now ≤ length w.old.out.now }
    ensures { Appends w.old (text_anew s.now) w.new }
{
    let mut c = Cursor { at: 0, line: 0 };
    let mut begun = false;
    while let Some(found) = c.next_line(s) {
        let line = &s[found.start..found.end];
        begun = has_begun(begun, line);
        put_line_from(w, line, begun);
        put_byte(w, s, found.end);
        c = found.next;
    }
}
