// Reads a text of a graph (sheet).
#![tactic(auto)]

ghost use Rattle.std.specs.Prelude.{◌≡◌, pos, length};
ghost use Rattle.graph.specs.Refusal.{told, reported, output};
ghost use Rattle.graph.specs.Limits.{most_edges};
ghost use Rattle.graph.specs.Graph.{shape_of};
ghost use Rattle.layout.specs.Text.{words, natural, three_words};
ghost use Rattle.layout.specs.Lines.{read_text};
ghost use Rattle.layout.specs.GraphText.{field_word, graph_sizes, graph_layout, read_graph_by, read_graph};
ghost use Rattle.headers.specs.Headers.{kind_told};
ghost use Rattle.edge_reader.specs.Edges.{Cleared, GraphReading};
ghost use Rattle.graph_reader.specs.OnLine.{shape_says, ShapeInRange};

use edge_reader::EdgeText;
use graph::{Fault, Kind, Refusal, Shape};
use layout::{Field, Rules};

// The kind of graph that a header line with this field tells.
fn header_on(line: &[u8], field: Field) -> Option<Kind>
    ensures { result ≡ kind_told (field_word field) line.now }
{
    match field {
        Field::Integer => headers::header_kind(line, b"integer"),
        Field::Pattern => headers::header_kind(line, b"pattern"),
    }
}

fn shape_on(line: &[u8], kind: Kind, rules: Rules) -> Result<Shape, Fault>
    ensures says { shape_says result ≡ graph_sizes kind (three_words (natural rules) (natural rules) (natural rules) (words line.now)) }
    ensures ranged { ShapeInRange result }
{
    let (rows, columns, edges) = text::three_numbers(line, rules).ok_or(Fault::SizeLine)?;
    let s = Shape {
        kind,
        rows,
        columns,
        edges,
    };
    if ranges::sizes_in_range(s) {
        Ok(s)
    } else {
        Err(Fault::Sizes)
    }
}

// The whole text, into outputs that are cleared.
fn read_graph_lines(
    text: &[u8],
    rules: Rules,
    field: Field,
    row: &mut [u32],
    column: &mut [u32],
    weight: &mut [i32],
) -> Result<Shape, Refusal>
    requires { Cleared most_edges most_edges most_edges row.old column.old weight.old }
    ensures { GraphReading (read_text (graph_layout rules field) text.now) result row.new column.new weight.new }
{
    let header = lines::header_line(text)?;
    let Some(kind) = header_on(&text[header.start..header.end], field) else {
        return Err(lines::refused_at(Fault::Header, header.next));
    };
    let size = lines::size_line(text, header.next)?;
    let line = &text[size.start..size.end];
    let s = shape_on(line, kind, rules).map_err(|fault| lines::refused_at(fault, size.next))?;
    let what = EdgeText::Coordinates { rules, field };
    edge_reader::read_edges(text, size.next, what, s, row, column, weight)
}

// Reads a graph by these rules, with this field; without weights each weight is 0. After a refusal the outputs are all 0.
pub fn read_graph_by(
    text: &[u8],
    rules: Rules,
    field: Field,
    row: &mut [u32],
    column: &mut [u32],
    weight: &mut [i32],
) -> Result<Shape, Refusal>
    ensures answer { result ≡ reported shape_of (read_graph_by rules field (length row.old) (length column.old) (length weight.old) text.now) }
    ensures rows { row.new ≡ output (length row.old) 0 (λ g. g.row) (read_graph_by rules field (length row.old) (length column.old) (length weight.old) text.now) }
    ensures columns { column.new ≡ output (length column.old) 0 (λ g. g.column) (read_graph_by rules field (length row.old) (length column.old) (length weight.old) text.now) }
    ensures weights { weight.new ≡ output (length weight.old) (pos 0) (λ g. g.weight) (read_graph_by rules field (length row.old) (length column.old) (length weight.old) text.now) }
{
    edge_reader::clear(row, column, weight);
    lines::check_text(text, edge_reader::have_room(row, column, weight), true)?;
    let read = read_graph_lines(text, rules, field, row, column, weight);
    if read.is_err() {
        edge_reader::clear(row, column, weight);
    }
    read
}

// Reads a graph. After a refusal the outputs are all 0.
pub fn read_graph(
    text: &[u8],
    row: &mut [u32],
    column: &mut [u32],
    weight: &mut [i32],
) -> Result<Shape, Refusal>
    ensures answer { result ≡ reported shape_of (read_graph (length row.old) (length column.old) (length weight.old) text.now) }
    ensures rows { row.new ≡ output (length row.old) 0 (λ g. g.row) (read_graph (length row.old) (length column.old) (length weight.old) text.now) }
    ensures columns { column.new ≡ output (length column.old) 0 (λ g. g.column) (read_graph (length row.old) (length column.old) (length weight.old) text.now) }
    ensures weights { weight.new ≡ output (length weight.old) (pos 0) (λ g. g.weight) (read_graph (length row.old) (length column.old) (length weight.old) text.now) }
{
    read_graph_by(text, Rules::New, Field::Integer, row, column, weight)
}
