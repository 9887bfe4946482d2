// Reads a text of bounds (limits) or of prices.
#![tactic(auto)]

ghost use Rattle.std.specs.Prelude.{◌≡◌, List, [], ℤ, pos, length, replicate};
ghost use Rattle.graph.specs.Graph.{up_to};
ghost use Rattle.graph.specs.Refusal.{told, reported, output};
ghost use Rattle.layout.specs.Text.{words, natural, integer, one_word, two_words};
ghost use Rattle.layout.specs.Lines.{reading};
ghost use Rattle.layout.specs.NumberText.{most_numbers_by, outside, number_judged, number_sizes, number_value, number_layout, read_numbers_by, read_numbers};
ghost use Rattle.lines.specs.Walk.{Walk};
ghost use Rattle.number_reader.specs.OnLine.{count_says, value_says, ValueInRange, NumbersReading};

use graph::{Fault, MOST_NUMBERS, MOST_OLD_NUMBERS, Refusal};
use layout::{Numbers, Rules};
use text::Cursor;

// How many numbers a text may have by the rules.
fn most_numbers(rules: Rules) -> u32
    ensures { result ≡ most_numbers_by rules }
{
    match rules {
        Rules::New => MOST_NUMBERS as u32,
        Rules::Old => MOST_OLD_NUMBERS as u32,
    }
}

fn count_in_range(rules: Rules, count: u32) -> bool
    ensures { result ≡ up_to (most_numbers_by rules) count }
{
    1 <= count && count <= most_numbers(rules)
}

fn count_on(line: &[u8], count: u32, rules: Rules) -> Result<(), Fault>
    ensures { count_says result ≡ number_sizes count (two_words (natural rules) (natural rules) (words line.now)) }
{
    let (rows, columns) = text::two_naturals(line, rules).ok_or(Fault::SizeLine)?;
    if rows == count && columns == 1 {
        Ok(())
    } else {
        Err(Fault::Sizes)
    }
}

fn outside(what: Numbers) -> Fault
    ensures { result ≡ outside what }
{
    match what {
        Numbers::Bounds => Fault::Bound,
        Numbers::Prices => Fault::Price,
    }
}

// The judge of a number. No sort looks at the numbers before it.
fn judge(rules: Rules, what: Numbers, z: i32) -> Result<i32, Fault>
    ensures says { (zs : List ℤ) → value_says zs result ≡ number_judged rules what zs z }
    ensures ranged { ValueInRange rules what result }
{
    if ranges::number_in_range(rules, what, z) {
        Ok(z)
    } else {
        Err(outside(what))
    }
}

fn number_on(line: &[u8], what: Numbers, rules: Rules) -> Result<i32, Fault>
    ensures says { (zs : List ℤ) → value_says zs result ≡ number_value rules what zs (one_word (integer rules) (words line.now)) }
    ensures ranged { ValueInRange rules what result }
{
    let z = text::one_number(line, rules).ok_or(Fault::LaterLine)?;
    judge(rules, what, z)
}

// The lines after the size line, into `out`, which is cleared.
fn read_values(
    text: &[u8],
    start: Cursor,
    rules: Rules,
    what: Numbers,
    count: u32,
    out: &mut [i32],
) -> Result<(), Refusal>
    requires walk { Walk (number_layout rules what count) text.now start (reading []) }
    requires out_value { out.old ≡ replicate count (pos 0) }
    ensures { NumbersReading rules what count text.now result out.new }
{
    let mut c = start;
    let mut i: usize = 0;
    while let Some(line) = lines::later_line(text, c, i < count as usize)? {
        let value = number_on(&text[line.start..line.end], what, rules).map_err(
            |fault| lines::refused_at(fault, line.next),
        )?;
        out[i] = value;
        i += 1;
        c = line.next;
    }
    Ok(())
}

// The whole text, into `out`, which is cleared.
fn read_number_lines(
    text: &[u8],
    rules: Rules,
    what: Numbers,
    count: u32,
    out: &mut [i32],
) -> Result<(), Refusal>
    requires { out.old ≡ replicate count (pos 0) }
    ensures { NumbersReading rules what count text.now result out.new }
{
    let header = lines::header_line(text)?;
    let line = &text[header.start..header.end];
    if !headers::is_header(line, b"matrix", b"array", b"integer", b"general") {
        return Err(lines::refused_at(Fault::Header, header.next));
    }
    let size = lines::size_line(text, header.next)?;
    let line = &text[size.start..size.end];
    count_on(line, count, rules).map_err(|fault| lines::refused_at(fault, size.next))?;
    read_values(text, size.next, rules, what, count, out)
}

// Reads a text of `count` numbers of a sort into `out`, by these rules. After a refusal `out` is all 0.
pub fn read_numbers_by(
    text: &[u8],
    rules: Rules,
    what: Numbers,
    count: u32,
    out: &mut [i32],
) -> Result<(), Refusal>
    ensures answer { result ≡ reported (λ zs. tt) (read_numbers_by rules what count (length out.old) text.now) }
    ensures numbers { out.new ≡ output (length out.old) (pos 0) (λ zs. zs) (read_numbers_by rules what count (length out.old) text.now) }
{
    filling::fill(out, 0);
    lines::check_text(
        text,
        out.len() == count as usize,
        count_in_range(rules, count),
    )?;
    let read = read_number_lines(text, rules, what, count, out);
    if read.is_err() {
        filling::fill(out, 0);
    }
    read
}

// Reads a text of `count` numbers of a sort into `out`. After a refusal `out` is all 0.
pub fn read_numbers(text: &[u8], what: Numbers, count: u32, out: &mut [i32]) -> Result<(), Refusal>
    ensures answer { result ≡ reported (λ zs. tt) (read_numbers what count (length out.old) text.now) }
    ensures numbers { out.new ≡ output (length out.old) (pos 0) (λ zs. zs) (read_numbers what count (length out.old) text.now) }
{
    read_numbers_by(text, Rules::New, what, count, out)
}
