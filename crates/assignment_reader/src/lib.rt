// Reads a DIMACS assignment text: a graph (sheet) whose bounds (limits) are all 1.
#![tactic(auto)]

ghost use Rattle.std.specs.Prelude.{◌≤◌, ◌≡◌, ◌&&◌, eqb, pos, length, replicate};
ghost use Rattle.graph.specs.Limits.{most_vertices, most_edges};
ghost use Rattle.graph.specs.Refusal.{told, reported, filled, output};
ghost use Rattle.graph.specs.Graph.{shape_of};
ghost use Rattle.layout.specs.AssignmentText.{Stated, assignment_shape, read_arcs, read_assignment, unit_bounds};
ghost use Rattle.lines.specs.Found.{Reached};
ghost use Rattle.edge_reader.specs.Edges.{Cleared, GraphReading};
ghost use Rattle.assignment_reader.specs.Sources.{stated, ProblemAs, SourcesAs};

use edge_reader::EdgeText;
use entries::Entry;
use graph::{Fault, Kind, MOST_VERTICES, Refusal, Shape};
use lines::Missing;
use sources::SourceLine;
use text::Cursor;

// What the problem line tells: its number, and the numbers of nodes and of arcs.
#[derive(Clone, Copy, Debug, PartialEq, Eq)]
struct Problem {
    line: u64,
    nodes: u32,
    arcs: u32,
}

// The problem line, which is the first that counts, and the cursor after it.
fn find_problem(text: &[u8]) -> Result<(Problem, Cursor), Refusal>
    ensures { ProblemAs text.now result }
{
    let line = match lines::entry_line(text, Cursor { at: 0, line: 0 }) {
        Ok(line) => line,
        Err(Missing::Ended(place)) => {
            return Err(lines::wrong_line(place));
        }
        Err(Missing::Long(place)) => {
            return Err(lines::wrong_line(place));
        }
    };
    let number = line.next.line as u64;
    let Some(Entry::Problem { nodes, arcs }) = entries::entry_on(&text[line.start..line.end]) else {
        return Err(lines::wrong_line(number));
    };
    let problem = Problem {
        line: number,
        nodes,
        arcs,
    };
    Ok((problem, line.next))
}

// The number of source nodes from a cursor on, up to the first arc or the end, and the cursor there.
fn find_sources(text: &[u8], start: Cursor, arcs: u32) -> Result<(u32, Cursor), Refusal>
    requires { Reached text.now start }
    ensures { (P : Stated) → P.arcs ≡ arcs → SourcesAs text.now start P result }
{
    let mut c = start;
    let mut rows: u32 = 0;
    loop {
        let line = match lines::entry_line(text, c) {
            Ok(line) => line,
            Err(Missing::Ended(_)) => {
                return Ok((rows, c));
            }
            Err(Missing::Long(place)) => {
                return Err(lines::wrong_line(place));
            }
        };
        match sources::next_source(&text[line.start..line.end], arcs, rows) {
            Ok(SourceLine::Node(node)) => {
                rows = node;
                c = line.next;
            }
            Ok(SourceLine::Arc) => {
                return Ok((rows, c));
            }
            Err(fault) => {
                return Err(lines::refused_at(fault, line.next));
            }
        }
    }
}

// The shape of a graph with so many source nodes: rows are the source nodes, and columns the nodes left over.
fn assignment_shape(problem: Problem, rows: u32) -> Shape
    ensures { result ≡ assignment_shape (stated problem) rows }
{
    Shape {
        kind: Kind::Bipartite,
        rows,
        columns: nodes::beyond(problem.nodes, rows),
        edges: problem.arcs,
    }
}

// The whole text, into outputs that are cleared.
fn read_assignment_lines(
    text: &[u8],
    row: &mut [u32],
    column: &mut [u32],
    weight: &mut [i32],
) -> Result<Shape, Refusal>
    requires { Cleared most_edges most_edges most_edges row.old column.old weight.old }
    ensures { GraphReading (read_arcs text.now) result row.new column.new weight.new }
{
    let (problem, next) = find_problem(text)?;
    let (rows, at) = find_sources(text, next, problem.arcs)?;
    let s = assignment_shape(problem, rows);
    if !ranges::sizes_in_range(s) {
        return Err(Refusal {
            fault: Fault::Sizes,
            place: problem.line,
        });
    }
    edge_reader::read_edges(text, at, EdgeText::Assignment, s, row, column, weight)
}

// Sets the first n bounds, of as many as the largest graph has, to 1, where all are 0.
fn set_bounds(bound: &mut [i32], n: usize)
    requires bound_value { bound.old ≡ replicate most_vertices (pos 0) }
    requires n_le_most_vertices { n ≤ most_vertices }
    ensures { bound.new ≡ filled most_vertices (pos 0) (replicate n (pos 1)) }
{
    filling::fill(&mut bound[..n], 1);
}

// The four outputs have a number for each edge and for each vertex of the largest graph.
fn have_room(row: &[u32], column: &[u32], weight: &[i32], bound: &[i32]) -> bool
    ensures { result ≡ (eqb (length row.now) most_edges && eqb (length column.now) most_edges && eqb (length weight.now) most_edges && eqb (length bound.now) most_vertices) }
{
    edge_reader::have_room(row, column, weight) && bound.len() == MOST_VERTICES
}

// Reads a graph and its bounds, which are all 1. After a refusal the outputs are all 0.
pub fn read_assignment(
    text: &[u8],
    row: &mut [u32],
    column: &mut [u32],
    weight: &mut [i32],
    bound: &mut [i32],
) -> Result<Shape, Refusal>
    ensures answer { result ≡ reported shape_of (read_assignment (length row.old) (length column.old) (length weight.old) (length bound.old) text.now) }
    ensures rows { row.new ≡ output (length row.old) 0 (λ g. g.row) (read_assignment (length row.old) (length column.old) (length weight.old) (length bound.old) text.now) }
    ensures columns { column.new ≡ output (length column.old) 0 (λ g. g.column) (read_assignment (length row.old) (length column.old) (length weight.old) (length bound.old) text.now) }
    ensures weights { weight.new ≡ output (length weight.old) (pos 0) (λ g. g.weight) (read_assignment (length row.old) (length column.old) (length weight.old) (length bound.old) text.now) }
    ensures bounds { bound.new ≡ output (length bound.old) (pos 0) unit_bounds (read_assignment (length row.old) (length column.old) (length weight.old) (length bound.old) text.now) }
{
    edge_reader::clear(row, column, weight);
    filling::fill(bound, 0);
    lines::check_text(text, have_room(row, column, weight, bound), true)?;
    let read = read_assignment_lines(text, row, column, weight);
    match read {
        Ok(s) => set_bounds(bound, s.vertex_count() as usize),
        Err(_) => edge_reader::clear(row, column, weight),
    }
    read
}
