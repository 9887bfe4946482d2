// The stages of the method: what the searches are lent, the first prices, the row vertices served, and the prices handed out.
#![tactic(auto)]

ghost use Rattle.std.specs.Prelude.{◌-◌, ◌≤◌, ◌<◌, ◌≡◌, length, replicate};
ghost use Rattle.graph.specs.Limits.{most_vertices};
ghost use Rattle.graph.specs.Graph.{graph_of, vertices_in, first_end};
ghost use Rattle.graph.specs.Index.{index_of};
ghost use Rattle.graph.specs.Passed.{Passed, Bounded};
ghost use Rattle.dual.specs.Solve.{outputs_of, Solved};
ghost use Rattle.method.specs.Method.{level, value, Solvable};
ghost use Rattle.method.specs.Tree.{entries};
ghost use Rattle.optimiser.specs.Optimiser.{Raised, Started, BoundsTabled};

use graph::{MOST_EDGES, MOST_VERTICES, Shape};
use method::{KeptEdge, LEVEL, State, Table};

// Raises the price of edge e's row vertex to the edge's weight, if it is not as high already.
fn raise_row(s: Shape, row: &[u32], column: &[u32], weight: &[i32], price: &mut [u32], e: usize)
    requires passed { Passed (graph_of s row.now column.now weight.now) }
    requires e_lt_edges { (e < s.edges) × (vertices_in s ≤ length price.old) }
    ensures { Raised (first_end (graph_of s row.now column.now weight.now) e) (value (graph_of s row.now column.now weight.now) e - level) (entries price.old) (entries price.new) }
{
    let v = (row[e] - 1) as usize;
    let k = method::value_at(weight, e) - LEVEL;
    if price[v] < k {
        price[v] = k;
    }
}

// The first prices, each one level up: 0 for a column vertex, and for a row vertex the greatest weight of its edges, or 0 where that is negative.
fn first_prices(s: Shape, row: &[u32], column: &[u32], weight: &[i32]) -> [u32; MOST_VERTICES]
    requires { Solvable (graph_of s row.now column.now weight.now) }
    ensures { Started (graph_of s row.now column.now weight.now) (entries result) s.edges }
{
    let mut price = [LEVEL; MOST_VERTICES];
    for e in 0..row.len() {
        raise_row(s, row, column, weight, &mut price, e);
    }
    price
}

// The table of the vertices, with their mosts; the leasts are 0.
fn table_of(bound: &[i32]) -> Table
    requires { length bound.now ≤ most_vertices }
    ensures { BoundsTabled bound.now result }
{
    let mut most = [0u32; MOST_VERTICES];
    for v in 0..bound.len() {
        most[v] = integers::natural_at(bound, v);
    }
    Table {
        start: [0u32; MOST_VERTICES],
        stop: [0u32; MOST_VERTICES],
        least: [0u32; MOST_VERTICES],
        most,
    }
}

// Chooses an optimal subgraph, where no edge is chosen yet, and sets the prices that show it. The chosen edges of the column vertices are listed in what
// is lent for a list.
pub fn optimise(
    s: Shape,
    row: &[u32],
    column: &[u32],
    weight: &[i32],
    bound: &[i32],
    index: &[u32],
    chosen: &mut [u8],
    vertex_price: &mut [i32],
    edge_price: &mut [i32],
    list: &mut [i32],
)
    requires solvable { Solvable (graph_of s row.now column.now weight.now) }
    requires index_value { index.now ≡ index_of (graph_of s row.now column.now weight.now) }
    requires bounded { Bounded (vertices_in s) bound.now }
    requires vertex_price_len { (length vertex_price.old ≡ vertices_in s) × (length edge_price.old ≡ s.edges) × (s.edges ≤ length list.old) }
    requires chosen_value { chosen.old ≡ replicate s.edges 0 }
    ensures { Solved (graph_of s row.now column.now weight.now) bound.now (outputs_of chosen.new vertex_price.new edge_price.new) }
{
    let mut table = table_of(bound);
    let nothing = KeptEdge {
        edge: 0,
        head: 0,
        value: 0,
    };
    let mut kept = [nothing; MOST_EDGES];
    arcs::keep_rows(s, row, column, weight, index, &mut table, &mut kept);
    arcs::begin_lists(s, row, column, weight, index, &mut table);
    let turns = roots::serving_order(s.rows, &table);
    let mut state = State {
        price: first_prices(s, row, column, weight),
        used: [0u32; MOST_VERTICES],
    };
    let mut place = [0u32; MOST_EDGES];
    let served = serving::serve_rows(
        s, row, column, weight, &kept, &table, turns, chosen, list, &mut place, &mut state,
    );
    if !served {
        return;
    }
    pricing::edge_prices(s, row, column, weight, chosen, &state.price, edge_price);
    pricing::vertex_prices(&state.price, vertex_price);
}
