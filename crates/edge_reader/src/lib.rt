// Reads the edges of a graph from a text: of coordinates (a sheet), or of an assignment.
#![tactic(auto)]

ghost use Rattle.std.specs.Prelude.{ℕ, ◌-◌, ◌≤◌, ◌≡◌, true, ◌&&◌, List, eqb, ltb, ℤ, neg_ℤ, length, Some};
ghost use Rattle.graph.specs.Limits.{most_edges};
ghost use Rattle.graph.specs.Graph.{graph_of, shape_in_range};
ghost use Rattle.layout.specs.Text.{words};
ghost use Rattle.layout.specs.GraphText.{no_edges, edge_on, graph_edge};
ghost use Rattle.layout.specs.AssignmentText.{joining, placed, on_entry, entry_on};
ghost use Rattle.lines.specs.Found.{Reached, part};
ghost use Rattle.edge_reader.specs.Edges.{Cleared, edge_says, EdgeInRange, Wanted, next_of, left, NextAs, GraphReading};

use checks::TABLE_FLAGS;
use entries::Entry;
use graph::{Fault, MOST_EDGES, Refusal, Shape};
use layout::{Field, Rules};
use lines::Missing;
use text::Cursor;

// The sort of text that edges are read from.
#[derive(Clone, Copy, Debug, PartialEq, Eq)]
pub enum EdgeText {
    Coordinates { rules: Rules, field: Field },
    Assignment,
}

// Clears the three outputs.
pub fn clear(row: &mut [u32], column: &mut [u32], weight: &mut [i32])
    ensures { Cleared (length row.old) (length column.old) (length weight.old) row.new column.new weight.new }
{
    filling::fill(row, 0);
    filling::fill(column, 0);
    filling::fill(weight, 0);
}

// The three outputs have a number for each edge of the largest graph.
pub fn have_room(row: &[u32], column: &[u32], weight: &[i32]) -> bool
    ensures { result ≡ (eqb (length row.now) most_edges && eqb (length column.now) most_edges && eqb (length weight.now) most_edges) }
{
    row.len() == MOST_EDGES && column.len() == MOST_EDGES && weight.len() == MOST_EDGES
}

// The row, the column and the weight on an edge's line, which the text has from `start` to `end`. Without weights the weight is 0.
fn edge_words(
    text: &[u8],
    start: usize,
    end: usize,
    rules: Rules,
    field: Field,
) -> Option<(u32, u32, i32)>
    requires { (start ≤ end) × (end ≤ length text.now) }
    ensures { result ≡ edge_on rules field (words (part text.now start end)) }
{
    match field {
        Field::Integer => text::three_numbers_in(text, start, end, rules),
        Field::Pattern => {
            let (row, column) = text::two_naturals_in(text, start, end, rules)?;
            Some((row, column, 0))
        }
    }
}

// An edge that a line tells, in range. Its ends are not looked up yet.
#[derive(Clone, Copy, Debug, PartialEq, Eq)]
pub struct Edge {
    pub row: u32,
    pub column: u32,
    pub weight: i32,
}

// A later line of a text of coordinates, from `start` to `end`.
fn coordinate_on(
    text: &[u8],
    start: usize,
    end: usize,
    s: Shape,
    rules: Rules,
    field: Field,
) -> Result<Edge, Fault>
    requires { (start ≤ end) × (end ≤ length text.now) }
    ensures says { (row column : List ℕ) (weight : List ℤ) → edge_says (graph_of s row column weight) result ≡ graph_edge (graph_of s row column weight) (edge_on rules field (words (part text.now start end))) }
    ensures ranged { EdgeInRange s result }
{
    let (row, column, weight) = edge_words(text, start, end, rules, field).ok_or(Fault::LaterLine)?;
    if !ranges::ends_in_range(s, row, column) {
        return Err(Fault::Ends);
    }
    if !ranges::weight_in_range(weight) {
        return Err(Fault::Weight);
    }
    Ok(Edge {
        row,
        column,
        weight,
    })
}

// An arc by its nodes and its cost, which is the weight negated. A column is a node's place beyond the rows, and a cost is in range just where the weight is.
fn arc_edge(s: Shape, source: u32, target: u32, cost: i32) -> Result<Edge, Fault>
    ensures says { (row column : List ℕ) (weight : List ℤ) → edge_says (graph_of s row column weight) result ≡ graph_edge (graph_of s row column weight) (Some (source, target - s.rows, neg_ℤ cost)) }
    ensures ranged { EdgeInRange s result }
{
    let column = nodes::column_of(target, s.rows);
    if !ranges::ends_in_range(s, source, column) {
        return Err(Fault::Ends);
    }
    if !ranges::weight_in_range(cost) {
        return Err(Fault::Weight);
    }
    Ok(Edge {
        row: source,
        column,
        weight: nodes::weight_at_cost(cost),
    })
}

// A line of an assignment text after its first arc, where `more` says whether an arc is still to come.
fn wanted_arc(line: &[u8], s: Shape, more: bool) -> Result<Edge, Fault>
    ensures says { (k : ℕ) (row column : List ℕ) (weight : List ℤ) → ltb (length row) s.edges ≡ more → on_entry k (joining (graph_of s row column weight)) (entry_on line.now) ≡ placed k (edge_says (graph_of s row column weight) result) }
    ensures ranged { EdgeInRange s result }
    ensures wanted { Wanted more result }
{
    match entries::entry_on(line) {
        Some(
            Entry::Arc {
                source,
                target,
                cost,
            },
        ) if more => arc_edge(s, source, target, cost),
        _ => Err(Fault::AssignmentLine),
    }
}

// What a line before a cursor brings: an edge and the cursor, or a refusal.
fn brings(edge: Result<Edge, Fault>, next: Cursor) -> Result<Option<(Edge, Cursor)>, Refusal>
    ensures { result ≡ next_of edge next }
{
    match edge {
        Ok(edge) => Ok(Some((edge, next))),
        Err(fault) => Err(lines::refused_at(fault, next)),
    }
}

// The next edge of a text of coordinates and the cursor after it, or `None` where the text ends as it should.
fn next_coordinate(
    text: &[u8],
    c: Cursor,
    more: bool,
    s: Shape,
    rules: Rules,
    field: Field,
) -> Result<Option<(Edge, Cursor)>, Refusal>
    requires { Reached text.now c }
    ensures { (row column : List ℕ) (weight : List ℤ) → ltb (length row) s.edges ≡ more → NextAs (EdgeText.Coordinates rules field) text.now c (graph_of s row column weight) result }
{
    match lines::later_line(text, c, more)? {
        None => Ok(None),
        Some(line) => {
            brings(
                coordinate_on(text, line.start, line.end, s, rules, field),
                line.next,
            )
        }
    }
}

// The next arc of an assignment text, in the same way.
fn next_arc(text: &[u8], c: Cursor, more: bool, s: Shape) -> Result<Option<(Edge, Cursor)>, Refusal>
    requires { Reached text.now c }
    ensures { (row column : List ℕ) (weight : List ℤ) → ltb (length row) s.edges ≡ more → NextAs EdgeText.Assignment text.now c (graph_of s row column weight) result }
{
    match lines::entry_line(text, c) {
        Ok(line) => brings(wanted_arc(&text[line.start..line.end], s, more), line.next),
        Err(Missing::Ended(place)) => {
            if more {
                Err(lines::wrong_line(place))
            } else {
                Ok(None)
            }
        }
        Err(Missing::Long(place)) => Err(lines::wrong_line(place)),
    }
}

// The next edge of a text.
fn next_edge(
    text: &[u8],
    c: Cursor,
    more: bool,
    s: Shape,
    what: EdgeText,
) -> Result<Option<(Edge, Cursor)>, Refusal>
    requires { Reached text.now c }
    ensures { (row column : List ℕ) (weight : List ℤ) → ltb (length row) s.edges ≡ more → NextAs what text.now c (graph_of s row column weight) result }
{
    match what {
        EdgeText::Coordinates { rules, field } => next_coordinate(text, c, more, s, rules, field),
        EdgeText::Assignment => next_arc(text, c, more, s),
    }
}

// The edges of a shape in range from a cursor on, into outputs that are cleared. The table has a flag for the ends of each edge read so far.
pub fn read_edges(
    text: &[u8],
    start: Cursor,
    what: EdgeText,
    s: Shape,
    row: &mut [u32],
    column: &mut [u32],
    weight: &mut [i32],
) -> Result<Shape, Refusal>
    requires reached { Reached text.now start }
    requires s_value { shape_in_range s ≡ true }
    requires cleared { Cleared most_edges most_edges most_edges row.old column.old weight.old }
    ensures { GraphReading (left what text.now start (no_edges s)) result row.new column.new weight.new }
{
    let mut seen = [0u8; TABLE_FLAGS];
    let mut c = start;
    let mut i: usize = 0;
    while let Some((edge, next)) = next_edge(text, c, i < s.edges as usize, s, what)? {
        if checks::note(&mut seen, edge.row, edge.column) {
            return Err(lines::refused_at(Fault::SameEnds, next));
        }
        row[i] = edge.row;
        column[i] = edge.column;
        weight[i] = edge.weight;
        i += 1;
        c = next;
    }
    Ok(s)
}
