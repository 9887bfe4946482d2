// What `mark` writes: how a subgraph (plan) measures against prices, or the first refusal.
ghost use Rattle.std.specs.Prelude.{◌≤◌, length};
ghost use Rattle.graph.specs.Graph.{graph_of, vertices_in};
ghost use Rattle.graph.specs.Passed.{SizesHold};
ghost use Rattle.report.specs.declared.Source.TheVariants.{Input};
ghost use Rattle.report.specs.Report.{measured_line, line_room, Composed};
ghost use Rattle.report.specs.Programs.{came_from, written, mark_prices, mark_plan, mark_problem, mark_output};

use dual::Measures;
use graph::{MOST_EDGES, MOST_NUMBERS, MOST_VERTICES, Refusal, Shape};
use layout::Numbers;
use problem_reader::SourceRefusal;
use report::Source;

// Writes the line of what the measuring answers.
fn put_measured(answer: Result<Measures, Refusal>, out: &mut [u8]) -> usize
    ensures { Composed line_room (written measured_line (came_from Input answer)) out.old out.new result }
{
    match answer {
        Ok(m) => report::put_measures(out, m),
        Err(refusal) => report::put_refused(out, Source::Input, refusal),
    }
}

// Measures the subgraph `chosen` against prices, first those of the vertices and then those of the edges, without odd sets.
fn mark_prices(
    s: Shape,
    row: &[u32],
    column: &[u32],
    weight: &[i32],
    bound: &[i32],
    chosen: &[u8],
    price: &[i32],
    out: &mut [u8],
) -> usize
    requires { vertices_in s ≤ length price.now }
    ensures { Composed line_room (written measured_line (mark_prices (graph_of s row.now column.now weight.now) bound.now chosen.now price.now)) out.old out.new result }
{
    let n = s.vertex_count() as usize;
    let (vertex_price, edge_price) = price.split_at(n);
    let answer = measure::measure(
        s,
        row,
        column,
        weight,
        bound,
        chosen,
        vertex_price,
        edge_price,
        0,
        &[],
        &[],
        &[],
    );
    put_measured(answer, out)
}

// Reads the prices of the vertices and the edges, and measures the subgraph `chosen` against them.
fn mark_plan(
    s: Shape,
    row: &[u32],
    column: &[u32],
    weight: &[i32],
    bound: &[i32],
    chosen: &[u8],
    prices: &[u8],
    out: &mut [u8],
) -> usize
    requires { SizesHold s.kind s.rows s.columns s.edges }
    ensures { Composed line_room (written measured_line (mark_plan (graph_of s row.now column.now weight.now) bound.now chosen.now prices.now)) out.old out.new result }
{
    let count = s.vertex_count() + s.edges as u64;
    let size = count as usize;
    let mut price = [0i32; MOST_NUMBERS];
    match number_reader::read_numbers(prices, Numbers::Prices, count as u32, &mut price[..size]) {
        Err(refusal) => report::put_refused(out, Source::Prices, refusal),
        Ok(()) => mark_prices(s, row, column, weight, bound, chosen, &price[..size], out),
    }
}

// Reads a subgraph of the graph, then the prices, and measures the one against the others.
fn mark_problem(
    s: Shape,
    row: &[u32],
    column: &[u32],
    weight: &[i32],
    bound: &[i32],
    plan: &[u8],
    prices: &[u8],
    out: &mut [u8],
) -> usize
    requires { SizesHold s.kind s.rows s.columns s.edges }
    ensures { Composed line_room (written measured_line (mark_problem (graph_of s row.now column.now weight.now) bound.now plan.now prices.now)) out.old out.new result }
{
    let m = s.edges as usize;
    let mut chosen = [0u8; MOST_EDGES];
    match subgraph_reader::read_subgraph(plan, s, row, column, weight, &mut chosen[..m]) {
        Err(refusal) => report::put_refused(out, Source::Plan, refusal),
        Ok(()) => mark_plan(s, row, column, weight, bound, &chosen[..m], prices, out),
    }
}

// Writes what `mark` writes of the four texts to `out`, 0 after its end. The result is its length; or 0, and `out` is cleared, where `out` is shorter
// than 256 bytes.
pub fn mark_output(sheet: &[u8], limits: &[u8], plan: &[u8], prices: &[u8], out: &mut [u8]) -> usize
    ensures inside { result ≤ length out.new }
    ensures composed { Composed line_room (mark_output sheet.now limits.now plan.now prices.now) out.old out.new result }
{
    let mut row = [0u32; MOST_EDGES];
    let mut column = [0u32; MOST_EDGES];
    let mut weight = [0i32; MOST_EDGES];
    let mut bound = [0i32; MOST_VERTICES];
    match problem_reader::read_problem(
        sheet,
        limits,
        &mut row,
        &mut column,
        &mut weight,
        &mut bound,
    ) {
        Err(SourceRefusal { source, refusal }) => report::put_refused(out, source, refusal),
        Ok(s) => {
            let n = s.vertex_count() as usize;
            let m = s.edges as usize;
            mark_problem(
                s,
                &row[..m],
                &column[..m],
                &weight[..m],
                &bound[..n],
                plan,
                prices,
                out,
            )
        }
    }
}
