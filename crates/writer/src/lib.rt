// Writes the head of a text of coordinates, and a subgraph (plan) as a Matrix Market text.
#![tactic(auto)]

ghost use Rattle.std.specs.Prelude.{◌≡◌, List, [], ◌∷◌, ◌+◌, ◌≤◌, ℤ, length, replicate};
ghost use Rattle.integers.specs.Sum.{sum};
ghost use Rattle.graph.specs.Limits.{most_edges, subgraph_bytes};
ghost use Rattle.graph.specs.Graph.{graph_of};
ghost use Rattle.graph.specs.Subgraph.{mark_at};
ghost use Rattle.graph.specs.Passed.{Sound, MarksHold};
ghost use Rattle.layout.specs.Text.{decimal, spaced, unlines};
ghost use Rattle.layout.specs.GraphText.{header_text};
ghost use Rattle.layout.specs.SubgraphText.{subgraph_text};
ghost use Rattle.digits.specs.Puts.{Puts};
ghost use Rattle.digits.specs.Appends.{Appends};
ghost use Rattle.writer.specs.Written.{Written, head_lines, marked_lines, left_by};

use digits::Writer;
use graph::{Kind, Refusal, Shape};
use layout::Field;

// What the tests of a call have answered, which is handed on; after a refusal all of its output is 0.
pub fn or_clear(tested: Result<(), Refusal>, out: &mut [u8]) -> Result<(), Refusal>
    ensures answer { result ≡ tested }
    ensures left { out.new ≡ left_by tested out.old }
{
    if tested.is_err() {
        filling::fill(out, 0);
    }
    tested
}

// Writes a line of two numbers, as an edge's is.
fn put_pair(w: &mut Writer, m: u32, n: u32)
    requires { w.old.at + 32 ≤ length w.old.out.now }
    ensures { Appends w.old (unlines (spaced (decimal m ∷ decimal n ∷ []) ∷ [])) w.new }
{
    w.field(u64::from(m), b' ');
    w.field(u64::from(n), b'\n');
}

// Writes the size line.
fn put_sizes(w: &mut Writer, rows: u32, columns: u32, count: u32)
    requires { w.old.at + 43 ≤ length w.old.out.now }
    ensures { Appends w.old (unlines (spaced (decimal rows ∷ decimal columns ∷ decimal count ∷ []) ∷ [])) w.new }
{
    w.field(u64::from(rows), b' ');
    put_pair(w, columns, count);
}

// Writes the header line of a field.
fn put_header(w: &mut Writer, field: Field, kind: Kind)
    requires { w.old.at + 64 ≤ length w.old.out.now }
    ensures { Appends w.old (unlines (header_text field kind ∷ [])) w.new }
{
    match (field, kind) {
        (Field::Integer, Kind::Bipartite) => w.bytes(
            b"%%MatrixMarket matrix coordinate integer general\n",
        ),
        (Field::Integer, Kind::General) => w.bytes(
            b"%%MatrixMarket matrix coordinate integer symmetric\n",
        ),
        (Field::Pattern, Kind::Bipartite) => w.bytes(
            b"%%MatrixMarket matrix coordinate pattern general\n",
        ),
        (Field::Pattern, Kind::General) => w.bytes(
            b"%%MatrixMarket matrix coordinate pattern symmetric\n",
        ),
    }
}

// Clears `out`, and writes the header line of a field and the size line at its start. The result writes on after them.
pub fn put_head<'a>(out: &'a mut [u8], field: Field, s: Shape, count: u32) -> Writer<'a>
    requires { 128 ≤ length out.old }
    ensures same { result.out.ghost_name ≡ out.entry.ghost_name }
    ensures long { length result.out.now ≡ length out.old }
    ensures written { Puts (replicate (length out.old) 0) 0 (unlines (head_lines field s count)) result.out.now result.at }
{
    let mut w = Writer::cleared(out);
    put_header(&mut w, field, s.kind);
    put_sizes(&mut w, s.rows, s.columns, count);
    w
}

// Writes the line of an edge if its mark is 1.
fn put_chosen_edge(w: &mut Writer, row: u32, column: u32, mark: u8)
    requires { w.old.at + 32 ≤ length w.old.out.now }
    ensures { Appends w.old (unlines (marked_lines row column mark)) w.new }
{
    let chosen = mark == 1;
    if chosen {
        put_pair(w, row, column);
    }
}

// The number of chosen edges.
fn count_chosen(chosen: &[u8]) -> u32
    requires { length chosen.now ≤ most_edges }
    ensures { result ≡ sum (length chosen.now) (mark_at chosen.now) }
{
    let mut count = 0;
    for mark in chosen {
        count += u32::from(*mark);
    }
    count
}

// Writes the text of the chosen edges to `out`, 0 after its end. The result is its length. The tests have been made; weights are not written, so
// that the text is the same whatever they are.
pub fn put_subgraph(out: &mut [u8], s: Shape, row: &[u32], column: &[u32], chosen: &[u8]) -> usize
    requires out_len { length out.old ≡ subgraph_bytes }
    requires sound { Sound s row.now column.now × MarksHold s.edges chosen.now }
    ensures { (w : List ℤ) → Written subgraph_bytes (subgraph_text (graph_of s row.now column.now w) chosen.now) out.new result }
{
    let mut w = put_head(out, Field::Pattern, s, count_chosen(chosen));
    for e in 0..row.len() {
        put_chosen_edge(&mut w, row[e], column[e], chosen[e]);
    }
    w.at
}
