// Reads the text of a subgraph (plan) of a graph.
#![tactic(auto)]

ghost use Rattle.std.specs.Prelude.{ℕ, ◌≤◌, ◌≡◌, [], length, replicate, Ok};
ghost use Rattle.graph.specs.Refusal.{told, passing, reported, output};
ghost use Rattle.graph.specs.Graph.{graph_of};
ghost use Rattle.graph.specs.Passed.{Sound};
ghost use Rattle.cells.specs.Cells.{Distinct};
ghost use Rattle.layout.specs.declared.Rules.TheVariants.{New};
ghost use Rattle.layout.specs.Text.{words, natural, two_words, three_words};
ghost use Rattle.layout.specs.Lines.{reading};
ghost use Rattle.layout.specs.GraphText.{no_edges};
ghost use Rattle.layout.specs.SubgraphText.{kinds_agree, subgraph_sizes, subgraph_edge, subgraph_layout, read_subgraph, subgraph_reader_tests};
ghost use Rattle.lines.specs.Found.{part};
ghost use Rattle.lines.specs.Walk.{Walk};
ghost use Rattle.subgraph_reader.specs.OnLine.{so_far, chosen_says, choice_says, ChoiceInside, Celled, SubgraphReading};

use checks::TABLE_FLAGS;
use graph::{Fault, Kind, Refusal, Shape};
use layout::Rules;
use text::Cursor;

// The tests before the text is read. `n` is the length of the output.
fn check_inputs(
    text: &[u8],
    s: Shape,
    row: &[u32],
    column: &[u32],
    weight: &[i32],
    n: usize,
) -> Result<(), Refusal>
    ensures { result ≡ passing (subgraph_reader_tests (graph_of s row.now column.now weight.now) n text.now) (Ok tt) }
{
    lent::check_lent(s, row, column, weight, n == s.edges as usize)?;
    lines::check_text(text, true, true)
}

fn plan_size_on(line: &[u8], s: Shape) -> Result<u32, Fault>
    ensures { chosen_says s.edges result ≡ subgraph_sizes (no_edges s) (three_words (natural New) (natural New) (natural New) (words line.now)) }
{
    let (rows, columns, edges) = text::three_numbers(line, Rules::New).ok_or(Fault::SizeLine)?;
    let told = Shape {
        kind: s.kind,
        rows,
        columns,
        edges,
    };
    if !ranges::sizes_in_range(told) {
        return Err(Fault::Sizes);
    }
    if rows == s.rows && columns == s.columns && edges <= s.edges {
        Ok(edges)
    } else {
        Err(Fault::Disagreement)
    }
}

fn edge_on(
    text: &[u8],
    start: usize,
    end: usize,
    s: Shape,
    cells: &[u16],
    chosen: &[u8],
) -> Result<usize, Fault>
    requires start_le_end { (start ≤ end) × (end ≤ length text.now) }
    requires celled { Celled s cells.now }
    requires chosen_len { length chosen.now ≡ s.edges }
    ensures says { (t : Celled s cells.now) (count came : ℕ) → choice_says (so_far count came chosen.now) result ≡ subgraph_edge (graph_of s t.row t.column []) (so_far count came chosen.now) (two_words (natural New) (natural New) (words (part text.now start end))) }
    ensures inside { ChoiceInside s.edges result }
{
    let (r, c) = text::two_naturals_in(text, start, end, Rules::New).ok_or(Fault::LaterLine)?;
    if !ranges::ends_in_range(s, r, c) {
        return Err(Fault::Ends);
    }
    let e = cells::find_edge(cells, r, c).ok_or(Fault::Disagreement)?;
    let free = chosen[e] == 0;
    if free { Ok(e) } else { Err(Fault::SameEnds) }
}

// The lines after the size line, of which `count` name an edge, into `chosen`. Each edge is looked up in a table of cells.
fn read_marks(
    text: &[u8],
    start: Cursor,
    s: Shape,
    row: &[u32],
    column: &[u32],
    count: u32,
    chosen: &mut [u8],
) -> Result<(), Refusal>
    requires walk { Walk (subgraph_layout New (graph_of s row.now column.now [])) text.now start (reading (so_far count 0 chosen.old)) }
    requires sound { Sound s row.now column.now × Distinct row.now column.now × (length chosen.old ≡ s.edges) }
    ensures { SubgraphReading (graph_of s row.now column.now []) text.now result chosen.new }
{
    let mut cells = [0u16; TABLE_FLAGS];
    cells::fill_cells(row, column, &mut cells);
    let mut c = start;
    let mut came: u32 = 0;
    while let Some(line) = lines::later_line(text, c, came < count)? {
        let edge = edge_on(text, line.start, line.end, s, &cells, chosen).map_err(
            |fault| lines::refused_at(fault, line.next),
        )?;
        chosen[edge] = 1;
        came += 1;
        c = line.next;
    }
    Ok(())
}

// The whole text, into `chosen`, which is cleared.
fn read_subgraph_lines(
    text: &[u8],
    s: Shape,
    row: &[u32],
    column: &[u32],
    chosen: &mut [u8],
) -> Result<(), Refusal>
    requires sound { Sound s row.now column.now × Distinct row.now column.now }
    requires chosen_value { chosen.old ≡ replicate s.edges 0 }
    ensures { SubgraphReading (graph_of s row.now column.now []) text.now result chosen.new }
{
    let header = lines::header_line(text)?;
    let Some(kind) = headers::header_kind(&text[header.start..header.end], b"pattern") else {
        return Err(lines::refused_at(Fault::Header, header.next));
    };
    if kind != s.kind {
        return Err(lines::refused_at(Fault::Disagreement, header.next));
    }
    let size = lines::size_line(text, header.next)?;
    let line = &text[size.start..size.end];
    let count = plan_size_on(line, s).map_err(|fault| lines::refused_at(fault, size.next))?;
    read_marks(text, size.next, s, row, column, count, chosen)
}

// Reads the text of a subgraph of the graph into `chosen`, one mark for each edge. After a refusal `chosen` is all 0.
pub fn read_subgraph(
    text: &[u8],
    s: Shape,
    row: &[u32],
    column: &[u32],
    weight: &[i32],
    chosen: &mut [u8],
) -> Result<(), Refusal>
    ensures answer { result ≡ reported (λ x. tt) (read_subgraph (graph_of s row.now column.now weight.now) (length chosen.old) text.now) }
    ensures marks { chosen.new ≡ output (length chosen.old) 0 (λ x. x) (read_subgraph (graph_of s row.now column.now weight.now) (length chosen.old) text.now) }
{
    filling::fill(chosen, 0);
    check_inputs(text, s, row, column, weight, chosen.len())?;
    let read = read_subgraph_lines(text, s, row, column, chosen);
    if read.is_err() {
        filling::fill(chosen, 0);
    }
    read
}
