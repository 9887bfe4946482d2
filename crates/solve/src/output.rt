// What `solve` writes: reads a problem, indexes and solves it, and writes an optimal subgraph (plan), or the refusal that ends the run.
ghost use Rattle.std.specs.Prelude.{◌≡◌, ◌≤◌, length};
ghost use Rattle.graph.specs.Limits.{subgraph_bytes};
ghost use Rattle.graph.specs.Graph.{graph_of};
ghost use Rattle.graph.specs.Passed.{SizesHold};
ghost use Rattle.report.specs.Programs.{solve_indexed, solve_problem, SolveComposed};
ghost use Rattle.solve.specs.Solution.{Solution};

use graph::{MOST_EDGES, MOST_INDEX, MOST_VERTICES, SUBGRAPH_BYTES, Shape, WORKSPACE_NUMBERS};
use problem_reader::SourceRefusal;
use report::Source;

// Solves a problem with its index, and writes the text of an optimal subgraph or the solver's refusal to `out`, 0 after its end. The result is its length.
fn solve_indexed(
    s: Shape,
    row: &[u32],
    column: &[u32],
    weight: &[i32],
    bound: &[i32],
    index: &[u32],
    out: &mut [u8],
) -> usize
    requires sizes_hold { SizesHold s.kind s.rows s.columns s.edges }
    requires out_len { length out.old ≡ subgraph_bytes }
    ensures { Solution (graph_of s row.now column.now weight.now) bound.now (solve_indexed (graph_of s row.now column.now weight.now) bound.now index.now) out.old out.new result }
{
    let n = s.vertex_count() as usize;
    let m = s.edges as usize;
    let mut chosen = [0u8; MOST_EDGES];
    let mut vertex_price = [0i32; MOST_VERTICES];
    let mut edge_price = [0i32; MOST_EDGES];
    let mut workspace = [0i32; WORKSPACE_NUMBERS];
    match solver::solve(
        s,
        row,
        column,
        weight,
        bound,
        index,
        &mut chosen[..m],
        &mut vertex_price[..n],
        &mut edge_price[..m],
        &mut workspace,
    ) {
        Err(refusal) => report::put_refused(out, Source::Input, refusal),
        Ok(()) => writer::put_subgraph(out, s, row, column, &chosen[..m]),
    }
}

// Builds the index of a problem's graph, and solves the problem with it.
fn solve_problem(
    s: Shape,
    row: &[u32],
    column: &[u32],
    weight: &[i32],
    bound: &[i32],
    out: &mut [u8],
) -> usize
    requires sizes_hold { SizesHold s.kind s.rows s.columns s.edges }
    requires out_len { length out.old ≡ subgraph_bytes }
    ensures { Solution (graph_of s row.now column.now weight.now) bound.now (solve_problem (graph_of s row.now column.now weight.now) bound.now) out.old out.new result }
{
    let k = index_builder::index_numbers(s) as usize;
    let mut index = [0u32; MOST_INDEX];
    match index_builder::build_index(s, row, column, weight, &mut index[..k]) {
        Err(refusal) => report::put_refused(out, Source::Input, refusal),
        Ok(()) => solve_indexed(s, row, column, weight, bound, &index[..k], out),
    }
}

// Writes what `solve` writes of the two texts to `out`, 0 after its end. The result is its length; or 0, and `out` is cleared, where `out` has not just
// 16,384 bytes.
pub fn solve_output(sheet: &[u8], limits: &[u8], out: &mut [u8]) -> usize
    ensures inside { result ≤ length out.new }
    ensures solve_composed { SolveComposed sheet.now limits.now out.old out.new result }
{
    if out.len() != SUBGRAPH_BYTES {
        filling::fill(out, 0);
        return 0;
    }
    let mut row = [0u32; MOST_EDGES];
    let mut column = [0u32; MOST_EDGES];
    let mut weight = [0i32; MOST_EDGES];
    let mut bound = [0i32; MOST_VERTICES];
    match problem_reader::read_problem(
        sheet,
        limits,
        &mut row,
        &mut column,
        &mut weight,
        &mut bound,
    ) {
        Err(SourceRefusal { source, refusal }) => report::put_refused(out, source, refusal),
        Ok(s) => {
            let n = s.vertex_count() as usize;
            let m = s.edges as usize;
            solve_problem(s, &row[..m], &column[..m], &weight[..m], &bound[..n], out)
        }
    }
}
