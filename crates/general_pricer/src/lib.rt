// Prices a general graph (a tank sheet): the doubled graph is solved between the tests of what is lent and the sums that are handed out.
#![tactic(auto)]

ghost use Rattle.std.specs.Prelude.{◌+◌, ◌≡◌, length};
ghost use Rattle.graph.specs.Graph.{graph_of, vertices_in};
ghost use Rattle.graph.specs.Passed.{Bounded};
ghost use Rattle.dual.specs.Solve.{without_sets};
ghost use Rattle.dual.specs.PriceGeneral.{price_general, DoublyPriced, GeneralLeft};
ghost use Rattle.doubling.specs.Doublable.{Doublable};
ghost use Rattle.method.specs.Method.{Solvable};
ghost use Rattle.general_pricer.specs.SolvedWith.{SolvedWith, SummedFrom};

use graph::{Fault, MOST_EDGES, MOST_INDEX, MOST_VERTICES, Refusal, Shape};
use integers::both;

// The tests, in their order. `vertex` and `edge` are the lengths of the outputs.
fn check_general(
    s: Shape,
    row: &[u32],
    column: &[u32],
    weight: &[i32],
    bound: &[i32],
    vertex: usize,
    edge: usize,
) -> Result<(), Refusal>
    ensures { result ≡ price_general (graph_of s row.now column.now weight.now) bound.now vertex edge }
{
    let n = s.vertex_count() as usize;
    let others = both(vertex == n, edge == s.edges as usize);
    lent::check_bounded(s, row, column, weight, bound, others)?;
    checks::check_once(Fault::NotDoubled, doubler::can_double(s))
}

// Solves a bipartite graph for its prices, with an index and a workspace of its own.
fn solve_prices(
    s: Shape,
    row: &[u32],
    column: &[u32],
    weight: &[i32],
    bound: &[i32],
    vertex_price: &mut [i32],
    edge_price: &mut [i32],
)
    requires solvable { Solvable (graph_of s row.now column.now weight.now) }
    requires bounded { Bounded (vertices_in s) bound.now }
    requires vertex_price_len { (length vertex_price.old ≡ vertices_in s) × (length edge_price.old ≡ s.edges) }
    ensures { SolvedWith (graph_of s row.now column.now weight.now) bound.now vertex_price.new edge_price.new }
{
    let m = s.edges as usize;
    let k = index_builder::index_numbers(s) as usize;
    let mut index = [0u32; MOST_INDEX];
    index_builder::fill_index(s, row, column, &mut index);
    let mut chosen = [0u8; MOST_EDGES];
    let mut list = [0i32; MOST_EDGES];
    optimiser::optimise(
        s,
        row,
        column,
        weight,
        bound,
        &index[..k],
        &mut chosen[..m],
        vertex_price,
        edge_price,
        &mut list,
    );
}

// Solves the doubled graph, whose shape is d, and sets each vertex's and each edge's price to the sum of its two prices there in points, as half points.
fn sum_prices(
    d: Shape,
    row: &[u32],
    column: &[u32],
    weight: &[i32],
    bound: &[i32],
    vertex_price: &mut [i32],
    edge_price: &mut [i32],
)
    requires solvable { Solvable (graph_of d row.now column.now weight.now) }
    requires bounded { Bounded (vertices_in d) bound.now }
    requires vertex_price_len { (length vertex_price.old + length vertex_price.old ≡ vertices_in d) × (length edge_price.old + length edge_price.old ≡ d.edges) }
    ensures { SummedFrom (graph_of d row.now column.now weight.now) bound.now vertex_price.new edge_price.new }
{
    let n = d.vertex_count() as usize;
    let m = d.edges as usize;
    let mut vertices = [0i32; MOST_VERTICES];
    let mut edges = [0i32; MOST_EDGES];
    solve_prices(
        d,
        row,
        column,
        weight,
        bound,
        &mut vertices[..n],
        &mut edges[..m],
    );
    doubler::sum_points(&vertices[..n], vertex_price);
    doubler::sum_points(&edges[..m], edge_price);
}

// Prices a graph that has passed the tests: doubles it, and hands out the sums of its prices.
fn price_doubled(
    s: Shape,
    row: &[u32],
    column: &[u32],
    weight: &[i32],
    bound: &[i32],
    vertex_price: &mut [i32],
    edge_price: &mut [i32],
)
    requires doublable { Doublable (graph_of s row.now column.now weight.now) }
    requires bounded { Bounded (vertices_in s) bound.now }
    requires vertex_price_len { (length vertex_price.old ≡ vertices_in s) × (length edge_price.old ≡ s.edges) }
    ensures { DoublyPriced (graph_of s row.now column.now weight.now) bound.now (without_sets vertex_price.new edge_price.new) }
{
    let d = doubler::doubled_shape(s);
    let n = d.vertex_count() as usize;
    let m = d.edges as usize;
    let mut rows = [0u32; MOST_EDGES];
    let mut columns = [0u32; MOST_EDGES];
    let mut weights = [0i32; MOST_EDGES];
    let mut bounds = [0i32; MOST_VERTICES];
    doubler::join(row, column, &mut rows[..m]);
    doubler::join(column, row, &mut columns[..m]);
    doubler::join(weight, weight, &mut weights[..m]);
    doubler::join(bound, bound, &mut bounds[..n]);
    sum_prices(
        d,
        &rows[..m],
        &columns[..m],
        &weights[..m],
        &bounds[..n],
        vertex_price,
        edge_price,
    );
}

// Sets prices of a general graph that cover every edge, where the tests accept the graph and its bounds.
pub fn price_general(
    s: Shape,
    row: &[u32],
    column: &[u32],
    weight: &[i32],
    bound: &[i32],
    vertex_price: &mut [i32],
    edge_price: &mut [i32],
) -> Result<(), Refusal>
    ensures answer { result ≡ price_general (graph_of s row.now column.now weight.now) bound.now (length vertex_price.old) (length edge_price.old) }
    ensures prices { GeneralLeft (graph_of s row.now column.now weight.now) bound.now (length vertex_price.old) (length edge_price.old) vertex_price.new edge_price.new }
{
    let check = check_general(
        s,
        row,
        column,
        weight,
        bound,
        vertex_price.len(),
        edge_price.len(),
    );
    filling::fill(vertex_price, 0);
    filling::fill(edge_price, 0);
    check?;
    price_doubled(s, row, column, weight, bound, vertex_price, edge_price);
    Ok(())
}
