// Header lines of texts of coordinates and of numbers.
#![tactic(auto)]

ghost use Rattle.std.specs.Prelude.{◌≡◌, [], ◌∷◌};
ghost use Rattle.layout.specs.Text.{header};
ghost use Rattle.keywords.specs.Keywords.{within, follow};
ghost use Rattle.headers.specs.Headers.{kind_told};

use graph::Kind;

// No word comes any more.
fn ended(line: &[u8], from: Option<usize>) -> bool
    requires { within line.now from }
    ensures { result ≡ follow line.now from [] }
{
    from.is_some_and(|at| text::no_words(line, at))
}

// A header line: the first word begins the line and keeps its case, and the words a, b, c and d follow in either case.
pub fn is_header(line: &[u8], a: &[u8], b: &[u8], c: &[u8], d: &[u8]) -> bool
    ensures { result ≡ header (a.now ∷ b.now ∷ c.now ∷ d.now ∷ []) line.now }
{
    if !keywords::word_first(line) {
        return false;
    }
    let first = keywords::first_word(line, b"%%MatrixMarket");
    let second = keywords::keyword(line, first, a);
    let third = keywords::keyword(line, second, b);
    let fourth = keywords::keyword(line, third, c);
    let fifth = keywords::keyword(line, fourth, d);
    ended(line, fifth)
}

pub fn header_kind(line: &[u8], field: &[u8]) -> Option<Kind>
    ensures { result ≡ kind_told field.now line.now }
{
    if is_header(line, b"matrix", b"coordinate", field, b"general") {
        return Some(Kind::Bipartite);
    }
    if is_header(line, b"matrix", b"coordinate", field, b"symmetric") {
        return Some(Kind::General);
    }
    None
}
