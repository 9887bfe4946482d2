// The solver: the primal-dual method between the tests of what is lent and the prices that are handed out.
#![tactic(auto)]

ghost use Rattle.std.specs.Prelude.{◌≡◌, length};
ghost use Rattle.graph.specs.Graph.{graph_of};
ghost use Rattle.dual.specs.Solve as dual-solve;
ghost use Rattle.dual.specs.Solve.{lent_of, outputs_of, other_lengths, Left};

use graph::{Refusal, Shape, WORKSPACE_NUMBERS};
use integers::both;

// The lengths of what is lent for marks, vertex prices, edge prices and the workspace.
#[derive(Clone, Copy)]
struct Lengths {
    chosen: usize,
    vertex: usize,
    edge: usize,
    workspace: usize,
}

// Whether what is lent besides the graph and its bounds has just the lengths that the numbers of vertices and of edges give, and the workspace its own.
fn outputs_match(s: Shape, index: usize, outputs: Lengths) -> bool
    ensures { result ≡ other_lengths s index (lent_of outputs.chosen outputs.vertex outputs.edge outputs.workspace) }
{
    let n = s.vertex_count() as usize;
    let m = s.edges as usize;
    let marks = both(
        index == index_builder::index_numbers(s) as usize,
        outputs.chosen == m,
    );
    let prices = both(both(marks, outputs.vertex == n), outputs.edge == m);
    both(prices, outputs.workspace == WORKSPACE_NUMBERS)
}

// The solver's tests, in their order.
fn tested(
    s: Shape,
    row: &[u32],
    column: &[u32],
    weight: &[i32],
    bound: &[i32],
    index: &[u32],
    outputs: Lengths,
) -> Result<(), Refusal>
    ensures { result ≡ dual-solve.solve (graph_of s row.now column.now weight.now) bound.now index.now (lent_of outputs.chosen outputs.vertex outputs.edge outputs.workspace) }
{
    let others = outputs_match(s, index.len(), outputs);
    lent::check_bipartite(s, row, column, weight, bound, others)?;
    index::check_places(s, row, column, index)
}

// Chooses a subgraph of largest weight, and sets prices that show it, where the tests accept the graph, its bounds and its index.
pub fn solve(
    s: Shape,
    row: &[u32],
    column: &[u32],
    weight: &[i32],
    bound: &[i32],
    index: &[u32],
    chosen: &mut [u8],
    vertex_price: &mut [i32],
    edge_price: &mut [i32],
    workspace: &mut [i32],
) -> Result<(), Refusal>
    ensures result_value { result ≡ dual-solve.solve (graph_of s row.now column.now weight.now) bound.now index.now (lent_of (length chosen.old) (length vertex_price.old) (length edge_price.old) (length workspace.old)) }
    ensures left { Left (graph_of s row.now column.now weight.now) bound.now index.now (lent_of (length chosen.old) (length vertex_price.old) (length edge_price.old) (length workspace.old)) (outputs_of chosen.new vertex_price.new edge_price.new) workspace.new }
{
    let outputs = Lengths {
        chosen: chosen.len(),
        vertex: vertex_price.len(),
        edge: edge_price.len(),
        workspace: workspace.len(),
    };
    let check = tested(s, row, column, weight, bound, index, outputs);
    filling::fill(chosen, 0);
    filling::fill(vertex_price, 0);
    filling::fill(edge_price, 0);
    filling::fill(workspace, 0);
    check?;
    optimiser::optimise(
        s,
        row,
        column,
        weight,
        bound,
        index,
        chosen,
        vertex_price,
        edge_price,
        workspace,
    );
    filling::fill(workspace, 0);
    Ok(())
}
