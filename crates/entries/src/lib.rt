// The lines of an assignment text that are neither blank nor comments: the problem line, source nodes and arcs.
#![tactic(auto)]

ghost use Rattle.std.specs.Prelude.{◌≡◌, option_map};
ghost use Rattle.layout.specs.Text.{words, same};
ghost use Rattle.layout.specs.AssignmentText.{problem_of, source_of, arc_of, entry_on};
ghost use Rattle.entries.specs.Entries.{entry_says};

use layout::Rules;

// What a line is.
#[derive(Clone, Copy, Debug, PartialEq, Eq)]
pub enum Entry {
    Problem { nodes: u32, arcs: u32 },
    Source(u32),
    Arc { source: u32, target: u32, cost: i32 },
}

// What follows `p`: `asn`, the number of nodes and the number of arcs.
fn problem_on(rest: &[u8]) -> Option<Entry>
    ensures { option_map entry_says result ≡ problem_of (words rest.now) }
{
    let at = keywords::first_word(rest, b"asn")?;
    let (nodes, arcs) = text::two_naturals(&rest[at..], Rules::New)?;
    Some(Entry::Problem { nodes, arcs })
}

// What follows `n`: a source node.
fn source_on(rest: &[u8]) -> Option<Entry>
    ensures { option_map entry_says result ≡ source_of (words rest.now) }
{
    let node = text::one_number(rest, Rules::New)?;
    Some(Entry::Source(node))
}

// What follows `a`: source, target and cost.
fn arc_on(rest: &[u8]) -> Option<Entry>
    ensures { option_map entry_says result ≡ arc_of (words rest.now) }
{
    let (source, target, cost) = text::three_numbers(rest, Rules::New)?;
    Some(Entry::Arc {
        source,
        target,
        cost,
    })
}

// Whether a word is the letter k, in its own case.
fn is_letter(w: &[u8], k: &[u8]) -> bool
    ensures { result ≡ same w.now k.now }
{
    keywords::same_word(w, k)
}

// A line by its first word, a letter that begins it.
pub fn entry_on(line: &[u8]) -> Option<Entry>
    ensures { option_map entry_says result ≡ entry_on line.now }
{
    if !keywords::word_first(line) {
        return None;
    }
    let start = text::skip_blanks(line, 0);
    let letter = text::word(line, start);
    let rest = &line[start + letter.len()..];
    if is_letter(letter, b"p") {
        problem_on(rest)
    } else if is_letter(letter, b"n") {
        source_on(rest)
    } else if is_letter(letter, b"a") {
        arc_on(rest)
    } else {
        None
    }
}
