// The walk over the lines of a text, for every reader: the next line that counts, or the refusal that takes its place.
#![tactic(auto)]

ghost use Rattle.std.specs.Prelude.{◌≡◌, Bool, ◌+◌, List, ℕ, drop, [], ◌∷◌, ◌||◌, Ok};
ghost use Rattle.std.specs.Fn.{FnReturnsAt};
ghost use Rattle.graph.specs.declared.Fault.TheVariants.{TextLength, Sizes, LentLength};
ghost use Rattle.graph.specs.Refusal.{once, passing};
ghost use Rattle.layout.specs.Text.{lines, blank_line, starts_with, text_fits};
ghost use Rattle.layout.specs.AssignmentText.{skipped};
ghost use Rattle.lines.specs.Found.{next_data, Reached, FoundAs};
ghost use Rattle.lines.specs.Walk.{place_of, opened_of, OpenedAs, LaterAs, origin, header_met, size_met, later_met};

use graph::{Fault, LONGEST_LINE, LONGEST_TEXT, Refusal};
use text::{Cursor, Line};

// No line that counts is found: the lines end, or a line is over 1,024 bytes; with the number of the line.
#[derive(Clone, Copy)]
pub enum Missing {
    Ended(u64),
    Long(u64),
}

impl Missing {
    // The refusal of that line.
    fn refused(self, fault: Fault) -> Refusal
        ensures { result ≡ record { fault = fault; place = place_of self } }
    {
        match self {
            Missing::Ended(place) => Refusal { fault, place },
            Missing::Long(place) => Refusal { fault, place },
        }
    }
}

// The line is blank, or begins with the byte b.
fn is_blank_or_starts(line: &[u8], b: u8) -> bool
    ensures { result ≡ (blank_line line.now || starts_with b line.now) }
{
    text::is_blank_line(line) || text::starts_with(line, b)
}

// The next line from a cursor on that `skips` does not pass over.
fn find_line<F: Fn(&[u8]) -> bool>(s: &[u8], from: Cursor, skips: F) -> Result<Line, Missing>
    requires reached { Reached s.now from }
    requires callable { F.IsAlwaysCallable skips }
    ensures { (skip : List ℕ → Bool)
        → ((l : List ℕ) (b : Bool) → FnReturnsAt F.Fn skips l b → b ≡ skip l)
        → FoundAs s.now from (next_data skip (from.line + 1) (lines (drop from.at s.now))) result }
{
    let mut c = from;
    while let Some(line) = c.next_line(s) {
        let bytes = &s[line.start..line.end];
        let long = bytes.len() > LONGEST_LINE;
        if long {
            return Err(Missing::Long(line.next.line as u64));
        }
        if !skips(bytes) {
            return Ok(line);
        }
        c = line.next;
    }
    Err(Missing::Ended((c.line + 1) as u64))
}

// The next line of an assignment text that is neither blank nor a comment.
pub fn entry_line(s: &[u8], c: Cursor) -> Result<Line, Missing>
    requires { Reached s.now c }
    ensures { FoundAs s.now c (next_data skipped (c.line + 1) (lines (drop c.at s.now))) result }
{
    find_line(s, c, |line| is_blank_or_starts(line, b'c'))
}

// A line that has to come, and the fault where it does not.
fn to_come(found: Result<Line, Missing>, fault: Fault) -> Result<Line, Refusal>
    ensures { result ≡ opened_of fault found }
{
    found.map_err(|missing| missing.refused(fault))
}

// The first line of a text, or its refusal.
pub fn header_line(s: &[u8]) -> Result<Line, Refusal>
    ensures { OpenedAs s.now origin (header_met s.now) result }
{
    to_come(
        find_line(s, Cursor { at: 0, line: 0 }, |_line| false),
        Fault::Header,
    )
}

// The next line that is neither blank nor a comment, or its refusal.
pub fn size_line(s: &[u8], c: Cursor) -> Result<Line, Refusal>
    requires { Reached s.now c }
    ensures { OpenedAs s.now c (size_met s.now c) result }
{
    to_come(
        find_line(s, c, |line| is_blank_or_starts(line, b'%')),
        Fault::SizeLine,
    )
}

// The next line that is not blank, where `more` says whether one is still to come; or the lines end as they should.
// A line that is missing, surplus or too long is refused.
pub fn later_line(s: &[u8], c: Cursor, more: bool) -> Result<Option<Line>, Refusal>
    requires { Reached s.now c }
    ensures { LaterAs s.now c more (later_met s.now c more) result }
{
    match find_line(s, c, text::is_blank_line) {
        Ok(line) if more => Ok(Some(line)),
        Ok(line) => Err(refused_at(Fault::LaterLine, line.next)),
        Err(Missing::Ended(_)) if !more => Ok(None),
        Err(missing) => Err(missing.refused(Fault::LaterLine)),
    }
}

// The refusal of the line before a cursor.
pub fn refused_at(fault: Fault, next: Cursor) -> Refusal
    ensures { result ≡ record { fault = fault; place = next.line } }
{
    Refusal {
        fault,
        place: next.line as u64,
    }
}

// The refusal of a line of an assignment text: missing, too long, or not what should stand there.
pub fn wrong_line(place: u64) -> Refusal
    ensures { result ≡ record { fault = Fault.AssignmentLine; place = place } }
{
    Refusal {
        fault: Fault::AssignmentLine,
        place,
    }
}

// The tests before a text is read, of which a reader has made its own: what is lent, the sizes asked for, and the text's length.
pub fn check_text(s: &[u8], lent: bool, sizes: bool) -> Result<(), Refusal>
    ensures { result ≡ passing (once LentLength lent ∷ once Sizes sizes ∷ once TextLength (text_fits s.now) ∷ []) (Ok tt) }
{
    checks::check_once(Fault::LentLength, lent)?;
    checks::check_once(Fault::Sizes, sizes)?;
    checks::check_once(Fault::TextLength, s.len() <= LONGEST_TEXT)
}
