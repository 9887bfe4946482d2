// Writes a graph (sheet) whose bounds (limits) are all 1 as a DIMACS assignment text, after the tests on all that is lent.
#![tactic(auto)]

ghost use Rattle.std.specs.Prelude.{◌+◌, ◌≤◌, ◌<◌, ◌≡◌, [], ◌∷◌, length, Ok};
ghost use Rattle.graph.specs.Limits.{longest_text};
ghost use Rattle.graph.specs.Refusal.{told, passing, reported, output};
ghost use Rattle.graph.specs.Graph.{graph_of};
ghost use Rattle.graph.specs.Passed.{Passed};
ghost use Rattle.layout.specs.Text.{unlines};
ghost use Rattle.layout.specs.AssignmentText.{problem_line, source_line, source_lines, arc_line, arc_lines, assignment_text, assignment_tests, write_assignment};
ghost use Rattle.digits.specs.Appends.{Appends};
ghost use Rattle.writer.specs.Written.{Written};

use digits::Writer;
use graph::{Fault, LONGEST_TEXT, Refusal, Shape};

// Writes the problem line: the numbers of nodes and of arcs.
fn put_problem(w: &mut Writer, s: Shape)
    requires { w.old.at + 48 ≤ length w.old.out.now }
    ensures { Appends w.old (unlines (problem_line (graph_of s [] [] []) ∷ [])) w.new }
{
    w.bytes(b"p asn ");
    w.field(u64::from(s.rows) + u64::from(s.columns), b' ');
    w.field(u64::from(s.edges), b'\n');
}

// Writes the line of the source node of row vertex v.
fn put_source(w: &mut Writer, v: u32)
    requires { w.old.at + 23 ≤ length w.old.out.now }
    ensures { Appends w.old (unlines (source_line v ∷ [])) w.new }
{
    w.bytes(b"n ");
    w.field(nodes::source_node(v), b'\n');
}

// Writes the lines of the source nodes of the row vertices.
fn put_sources(w: &mut Writer, rows: u32)
    requires { (rows ≤ 128) × (w.old.at + 1024 ≤ length w.old.out.now) }
    ensures { Appends w.old (unlines (source_lines rows)) w.new }
{
    for v in 0..rows {
        put_source(w, v);
    }
}

// Writes the line of the arc of edge e: its row, the node of its column, and its cost.
fn put_arc(w: &mut Writer, s: Shape, row: &[u32], column: &[u32], weight: &[i32], e: usize)
    requires room { w.old.at + 66 ≤ length w.old.out.now }
    requires e_in_bounds { (e < length row.now) × (e < length column.now) × (e < length weight.now) }
    ensures { Appends w.old (unlines (arc_line (graph_of s row.now column.now weight.now) e ∷ [])) w.new }
{
    w.bytes(b"a ");
    w.field(u64::from(row[e]), b' ');
    w.field(nodes::column_node(s.rows, column[e]), b' ');
    w.signed(nodes::cost_of(weight, e));
    w.byte(b'\n');
}

// Writes the lines of the arcs of a graph that has passed the tests.
fn put_arcs(w: &mut Writer, s: Shape, row: &[u32], column: &[u32], weight: &[i32])
    requires room { w.old.at + 20000 ≤ length w.old.out.now }
    requires passed { Passed (graph_of s row.now column.now weight.now) }
    ensures { Appends w.old (unlines (arc_lines (graph_of s row.now column.now weight.now) s.edges)) w.new }
{
    for e in 0..row.len() {
        put_arc(w, s, row, column, weight, e);
    }
}

// Writes the assignment text of a graph that has passed the tests to `out`, 0 after its end. The result is its length.
fn put_assignment(out: &mut [u8], s: Shape, row: &[u32], column: &[u32], weight: &[i32]) -> usize
    requires out_len { length out.old ≡ longest_text }
    requires passed { Passed (graph_of s row.now column.now weight.now) }
    ensures { Written longest_text (assignment_text (graph_of s row.now column.now weight.now)) out.new result }
{
    let mut w = Writer::cleared(out);
    put_problem(&mut w, s);
    put_sources(&mut w, s.rows);
    put_arcs(&mut w, s, row, column, weight);
    w.at
}

// The tests, in their order: those of a bipartite graph with bounds, and that each bound is 1. `out` is the length of the output.
fn check_assignment(
    s: Shape,
    row: &[u32],
    column: &[u32],
    weight: &[i32],
    bound: &[i32],
    out: usize,
) -> Result<(), Refusal>
    ensures { result ≡ passing (assignment_tests (graph_of s row.now column.now weight.now) bound.now out) (Ok tt) }
{
    let long = out == LONGEST_TEXT;
    lent::check_bipartite(s, row, column, weight, bound, long)?;
    if let Some(v) = lowest::lowest_not_one(bound) {
        return checks::refused_item(Fault::BoundNotOne, v);
    }
    Ok(())
}

// Writes the assignment text of a graph to `out`, 0 after its end, and answers its length. After a refusal all of `out` is 0.
pub fn write_assignment(
    s: Shape,
    row: &[u32],
    column: &[u32],
    weight: &[i32],
    bound: &[i32],
    out: &mut [u8],
) -> Result<usize, Refusal>
    ensures answer { result ≡ reported length (write_assignment (graph_of s row.now column.now weight.now) bound.now (length out.old)) }
    ensures text { out.new ≡ output (length out.old) 0 (λ t. t) (write_assignment (graph_of s row.now column.now weight.now) bound.now (length out.old)) }
{
    writer::or_clear(
        check_assignment(s, row, column, weight, bound, out.len()),
        out,
    )?;
    Ok(put_assignment(out, s, row, column, weight))
}
