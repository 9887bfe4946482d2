// What `price_tanks` writes: reads a problem, prices its general graph by the doubled one, and writes the prices, or the refusal that ends the run.
ghost use Rattle.std.specs.Prelude.{◌≡◌, ◌≤◌, length};
ghost use Rattle.graph.specs.Limits.{longest_text};
ghost use Rattle.graph.specs.Graph.{graph_of};
ghost use Rattle.graph.specs.Passed.{SizesHold};
ghost use Rattle.report.specs.Programs.{PriceComposed};
ghost use Rattle.price_tanks.specs.PricesWritten.{PricesWritten};

use graph::{LONGEST_TEXT, MOST_EDGES, MOST_VERTICES, Shape};
use problem_reader::SourceRefusal;
use report::Source;

// Prices a problem that has been read, and writes the text of its prices, those of the vertices first, or the call's refusal to `out`, 0 after its end. The
// result is its length.
fn price_problem(
    s: Shape,
    row: &[u32],
    column: &[u32],
    weight: &[i32],
    bound: &[i32],
    out: &mut [u8],
) -> usize
    requires sizes_hold { SizesHold s.kind s.rows s.columns s.edges }
    requires out_len { length out.old ≡ longest_text }
    ensures { PricesWritten (graph_of s row.now column.now weight.now) bound.now out.old out.new result }
{
    let n = s.vertex_count() as usize;
    let m = s.edges as usize;
    let mut vertex_price = [0i32; MOST_VERTICES];
    let mut edge_price = [0i32; MOST_EDGES];
    match general_pricer::price_general(
        s,
        row,
        column,
        weight,
        bound,
        &mut vertex_price[..n],
        &mut edge_price[..m],
    ) {
        Err(refusal) => report::put_refused(out, Source::Input, refusal),
        Ok(()) => number_writer::put_numbers(out, &vertex_price[..n], &edge_price[..m]),
    }
}

// Writes what `price_tanks` writes of the two texts to `out`, 0 after its end. The result is its length; or 0, and `out` is cleared, where `out` has not
// just 32,768 bytes.
pub fn price_output(sheet: &[u8], limits: &[u8], out: &mut [u8]) -> usize
    ensures inside { result ≤ length out.new }
    ensures price_composed { PriceComposed sheet.now limits.now out.old out.new result }
{
    if out.len() != LONGEST_TEXT {
        filling::fill(out, 0);
        return 0;
    }
    let mut row = [0u32; MOST_EDGES];
    let mut column = [0u32; MOST_EDGES];
    let mut weight = [0i32; MOST_EDGES];
    let mut bound = [0i32; MOST_VERTICES];
    match problem_reader::read_problem(
        sheet,
        limits,
        &mut row,
        &mut column,
        &mut weight,
        &mut bound,
    ) {
        Err(SourceRefusal { source, refusal }) => report::put_refused(out, source, refusal),
        Ok(s) => {
            let n = s.vertex_count() as usize;
            let m = s.edges as usize;
            price_problem(s, &row[..m], &column[..m], &weight[..m], &bound[..n], out)
        }
    }
}
