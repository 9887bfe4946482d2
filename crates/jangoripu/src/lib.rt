// The public calls, exported for C and Rust; include/jangoripu.h declares them.
//
// Each returns 0 for a result, or the number of a refusal, and tells the refusal's place. A kind is a bool: false for bipartite (two-sided),
// true for general (one-sided); so is the sort of numbers: false for bounds (limits), true for prices. No other value can be passed.
#![tactic(auto)]

ghost use Rattle.std.specs.Prelude.{ℕ, ℤ, pos, length};
ghost use Rattle.layout.specs.GraphText.{read_graph};
ghost use Rattle.layout.specs.NumberText.{read_numbers};
ghost use Rattle.layout.specs.SubgraphText.{read_subgraph, write_subgraph};
ghost use Rattle.layout.specs.TidyText.{tidy_graph};
ghost use Rattle.layout.specs.AssignmentText.{write_assignment, read_assignment};
ghost use Rattle.graph.specs.Graph.{graph_of};
ghost use Rattle.graph.specs.Index.{build_index, test_index};
ghost use Rattle.dual.specs.Prices.{prices_of};
ghost use Rattle.dual.specs.Measure.{measure};
ghost use Rattle.dual.specs.Solve.{lent_of, outputs_of};
ghost use Rattle.telling.specs.Telling.{shape_given, numbers_of};
ghost use Rattle.jangoripu.specs.Exports.{GraphRead, AssignmentRead, Filled, Tested, TextWritten, GraphSolved, GeneralPriced, Measured};

// Reads a graph (sheet). The answer tells the place, and kind, rows, columns and the number of edges.
#[unsafe(no_mangle)]
pub extern "C" fn jangoripu_read_graph(
    text: &[u8],
    row: &mut [u32],
    column: &mut [u32],
    weight: &mut [i32],
    answer: &mut [u64; 5],
) -> u32
    ensures { GraphRead (read_graph (length row.old) (length column.old) (length weight.old) text.now) (length row.old) (length column.old) (length weight.old) result answer.new row.new column.new weight.new }
{
    let told = graph_reader::read_graph(text, row, column, weight);
    telling::tell_shape(told, answer)
}

// Reads `count` bounds (limits) or prices.
#[unsafe(no_mangle)]
pub extern "C" fn jangoripu_read_numbers(
    text: &[u8],
    prices: bool,
    count: u32,
    out: &mut [i32],
    place: &mut u64,
) -> u32
    ensures { Filled ℤ (read_numbers (numbers_of prices) count (length out.old) text.now) (length out.old) (pos 0) result place.new out.new }
{
    let what = telling::numbers_of(prices);
    let told = number_reader::read_numbers(text, what, count, out);
    telling::tell(told, place)
}

// Reads a subgraph (plan) of a graph.
#[unsafe(no_mangle)]
pub extern "C" fn jangoripu_read_subgraph(
    text: &[u8],
    general: bool,
    rows: u32,
    columns: u32,
    edges: u32,
    row: &[u32],
    column: &[u32],
    weight: &[i32],
    chosen: &mut [u8],
    place: &mut u64,
) -> u32
    ensures { Filled ℕ (read_subgraph (graph_of (shape_given general rows columns edges) row.now column.now weight.now) (length chosen.old) text.now) (length chosen.old) 0 result place.new chosen.new }
{
    let s = telling::shape_given(general, rows, columns, edges);
    let told = subgraph_reader::read_subgraph(text, s, row, column, weight, chosen);
    telling::tell(told, place)
}

// Writes a subgraph (plan) as a text. The answer tells the place, and the text's length.
#[unsafe(no_mangle)]
pub extern "C" fn jangoripu_write_subgraph(
    general: bool,
    rows: u32,
    columns: u32,
    edges: u32,
    row: &[u32],
    column: &[u32],
    weight: &[i32],
    chosen: &[u8],
    out: &mut [u8],
    answer: &mut [u64; 2],
) -> u32
    ensures { TextWritten (write_subgraph (graph_of (shape_given general rows columns edges) row.now column.now weight.now) chosen.now (length out.old)) (length out.old) result answer.new out.new }
{
    let s = telling::shape_given(general, rows, columns, edges);
    let told = subgraph_writer::write_subgraph(s, row, column, weight, chosen, out);
    telling::tell_text(told, answer)
}

// Writes the tidy text of a graph (the tidy sheet). The answer tells the place, and the text's length.
#[unsafe(no_mangle)]
pub extern "C" fn jangoripu_tidy_graph(
    general: bool,
    rows: u32,
    columns: u32,
    edges: u32,
    row: &[u32],
    column: &[u32],
    weight: &[i32],
    out: &mut [u8],
    answer: &mut [u64; 2],
) -> u32
    ensures { TextWritten (tidy_graph (graph_of (shape_given general rows columns edges) row.now column.now weight.now) (length out.old)) (length out.old) result answer.new out.new }
{
    let s = telling::shape_given(general, rows, columns, edges);
    let told = tidier::tidy_graph(s, row, column, weight, out);
    telling::tell_text(told, answer)
}

// Writes a graph whose bounds are all 1 as a DIMACS assignment text. The answer tells the place, and the text's length.
#[unsafe(no_mangle)]
pub extern "C" fn jangoripu_write_assignment(
    general: bool,
    rows: u32,
    columns: u32,
    edges: u32,
    row: &[u32],
    column: &[u32],
    weight: &[i32],
    bound: &[i32],
    out: &mut [u8],
    answer: &mut [u64; 2],
) -> u32
    ensures { TextWritten (write_assignment (graph_of (shape_given general rows columns edges) row.now column.now weight.now) bound.now (length out.old)) (length out.old) result answer.new out.new }
{
    let s = telling::shape_given(general, rows, columns, edges);
    let told = assignment_writer::write_assignment(s, row, column, weight, bound, out);
    telling::tell_text(told, answer)
}

// Reads a DIMACS assignment text: a graph, and its bounds, which are all 1. The answer tells the place, and kind, rows, columns and the number of edges.
#[unsafe(no_mangle)]
pub extern "C" fn jangoripu_read_assignment(
    text: &[u8],
    row: &mut [u32],
    column: &mut [u32],
    weight: &mut [i32],
    bound: &mut [i32],
    answer: &mut [u64; 5],
) -> u32
    ensures { AssignmentRead (read_assignment (length row.old) (length column.old) (length weight.old) (length bound.old) text.now) (length row.old) (length column.old) (length weight.old) (length bound.old) result answer.new row.new column.new weight.new bound.new }
{
    let told = assignment_reader::read_assignment(text, row, column, weight, bound);
    telling::tell_shape(told, answer)
}

// Builds the index of a graph (the pairs of each fish at hand).
#[unsafe(no_mangle)]
pub extern "C" fn jangoripu_build_index(
    general: bool,
    rows: u32,
    columns: u32,
    edges: u32,
    row: &[u32],
    column: &[u32],
    weight: &[i32],
    index: &mut [u32],
    place: &mut u64,
) -> u32
    ensures { Filled ℕ (build_index (graph_of (shape_given general rows columns edges) row.now column.now weight.now) (length index.old)) (length index.old) 0 result place.new index.new }
{
    let s = telling::shape_given(general, rows, columns, edges);
    let told = index_builder::build_index(s, row, column, weight, index);
    telling::tell(told, place)
}

// Tests whether a lent index is the graph's.
#[unsafe(no_mangle)]
pub extern "C" fn jangoripu_test_index(
    general: bool,
    rows: u32,
    columns: u32,
    edges: u32,
    row: &[u32],
    column: &[u32],
    weight: &[i32],
    index: &[u32],
    place: &mut u64,
) -> u32
    ensures { Tested (test_index (graph_of (shape_given general rows columns edges) row.now column.now weight.now) index.now) result place.new }
{
    let s = telling::shape_given(general, rows, columns, edges);
    let told = index::test_index(s, row, column, weight, index);
    telling::tell(told, place)
}

// Solves a bipartite graph, whose index is lent: an optimal subgraph (a plan of largest merit), and prices that prove it.
#[unsafe(no_mangle)]
pub extern "C" fn jangoripu_solve(
    general: bool,
    rows: u32,
    columns: u32,
    edges: u32,
    row: &[u32],
    column: &[u32],
    weight: &[i32],
    bound: &[i32],
    index: &[u32],
    chosen: &mut [u8],
    vertex_price: &mut [i32],
    edge_price: &mut [i32],
    workspace: &mut [i32],
    place: &mut u64,
) -> u32
    ensures { GraphSolved (graph_of (shape_given general rows columns edges) row.now column.now weight.now) bound.now index.now (lent_of (length chosen.old) (length vertex_price.old) (length edge_price.old) (length workspace.old)) result place.new (outputs_of chosen.new vertex_price.new edge_price.new) workspace.new }
{
    let s = telling::shape_given(general, rows, columns, edges);
    let told = solver::solve(
        s,
        row,
        column,
        weight,
        bound,
        index,
        chosen,
        vertex_price,
        edge_price,
        workspace,
    );
    telling::tell(told, place)
}

// Prices a general graph (a tank sheet): prices of vertices and edges that cover every edge, from a solution of the doubled graph.
#[unsafe(no_mangle)]
pub extern "C" fn jangoripu_price_general(
    general: bool,
    rows: u32,
    columns: u32,
    edges: u32,
    row: &[u32],
    column: &[u32],
    weight: &[i32],
    bound: &[i32],
    vertex_price: &mut [i32],
    edge_price: &mut [i32],
    place: &mut u64,
) -> u32
    ensures { GeneralPriced (graph_of (shape_given general rows columns edges) row.now column.now weight.now) bound.now (length vertex_price.old) (length edge_price.old) result place.new vertex_price.new edge_price.new }
{
    let s = telling::shape_given(general, rows, columns, edges);
    let told = general_pricer::price_general(
        s,
        row,
        column,
        weight,
        bound,
        vertex_price,
        edge_price,
    );
    telling::tell(told, place)
}

// Measures a subgraph (plan) against prices.
#[unsafe(no_mangle)]
pub extern "C" fn jangoripu_measure(
    general: bool,
    rows: u32,
    columns: u32,
    edges: u32,
    row: &[u32],
    column: &[u32],
    weight: &[i32],
    bound: &[i32],
    chosen: &[u8],
    vertex_price: &[i32],
    edge_price: &[i32],
    sets: u32,
    set_price: &[i32],
    set_vertices: &[u64],
    set_edges: &[u64],
    numbers: &mut [i64; 7],
    place: &mut u64,
) -> u32
    ensures { Measured (measure (graph_of (shape_given general rows columns edges) row.now column.now weight.now) bound.now chosen.now (prices_of vertex_price.now edge_price.now sets set_price.now set_vertices.now set_edges.now)) result place.new numbers.new }
{
    let s = telling::shape_given(general, rows, columns, edges);
    match measure::measure(
        s,
        row,
        column,
        weight,
        bound,
        chosen,
        vertex_price,
        edge_price,
        sets,
        set_price,
        set_vertices,
        set_edges,
    ) {
        Ok(m) => {
            *numbers = [
                m.weight, m.total, m.vertices, m.sets, m.edges, m.cover, m.gap,
            ];
            telling::tell(Ok(()), place)
        }
        Err(refusal) => {
            *numbers = [0; 7];
            telling::tell(Err(refusal), place)
        }
    }
}
