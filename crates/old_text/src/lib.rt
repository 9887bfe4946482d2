// Whether the old rules take a text: as a graph (sheet), as a subgraph (plan) of some graph, or as bounds (limits) or prices of some count.
#![tactic(auto)]

ghost use Rattle.std.specs.Prelude.{ℕ, ◌≡◌, ◌||◌, List, ℤ, Ok, Some};
ghost use Rattle.layout.specs.declared.Rules.TheVariants.{Old};
ghost use Rattle.layout.specs.declared.Numbers.{Numbers};
ghost use Rattle.layout.specs.declared.Numbers.TheVariants.{Bounds, Prices};
ghost use Rattle.layout.specs.Lines.{read_text};
ghost use Rattle.layout.specs.NumberText.{number_layout};
ghost use Rattle.layout.specs.Rewrite.{taken_as, taken_as_numbers, taken};

use graph::{MOST_EDGES, MOST_OLD_NUMBERS};
use layout::{Field, Numbers, Rules};

// The text is taken as a graph's, with this field.
fn is_taken_as(text: &[u8], field: Field) -> bool
    ensures { result ≡ taken_as field text.now }
{
    let mut row = [0u32; MOST_EDGES];
    let mut column = [0u32; MOST_EDGES];
    let mut weight = [0i32; MOST_EDGES];
    graph_reader::read_graph_by(text, Rules::Old, field, &mut row, &mut column, &mut weight).is_ok()
}

// The count that the size line tells. A text of numbers is taken for no other count.
fn told_count(text: &[u8]) -> Option<u32>
    ensures { (what : Numbers) (k : ℕ) (zs : List ℤ) → read_text (number_layout Old what k) text.now ≡ Ok zs → result ≡ Some k }
{
    let header = lines::header_line(text).ok()?;
    let size = lines::size_line(text, header.next).ok()?;
    let (count, _) = text::two_naturals(&text[size.start..size.end], Rules::Old)?;
    Some(count)
}

// The text is taken as bounds or as prices, of the count that it tells. Each bound could be a price.
fn is_taken_as_numbers(text: &[u8]) -> bool
    ensures { result ≡ (taken_as_numbers Bounds text.now || taken_as_numbers Prices text.now) }
{
    let Some(count) = told_count(text) else {
        return false;
    };
    if count > MOST_OLD_NUMBERS as u32 {
        return false;
    }
    let n = count as usize;
    let mut out = [0i32; MOST_OLD_NUMBERS];
    number_reader::read_numbers_by(text, Rules::Old, Numbers::Prices, count, &mut out[..n]).is_ok()
}

// The old rules take the text as one of these.
pub fn is_taken(text: &[u8]) -> bool
    ensures { result ≡ taken text.now }
{
    is_taken_as(text, Field::Integer)
        || is_taken_as(text, Field::Pattern)
        || is_taken_as_numbers(text)
}
