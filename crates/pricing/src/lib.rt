// The prices that are handed out, in half points.
#![tactic(auto)]

ghost use Rattle.std.specs.Prelude.{ℕ, ◌-◌, ◌≤◌, ◌<◌, ◌≡◌, pos, length, get_or};
ghost use Rattle.graph.specs.Limits.{most_vertices};
ghost use Rattle.graph.specs.Graph.{graph_of};
ghost use Rattle.dual.specs.Gap.{half_points};
ghost use Rattle.method.specs.Method.{level, top_price, top_value};
ghost use Rattle.method.specs.Tree.{entries};
ghost use Rattle.pricing.specs.Pricing.{Payable, edge_price_of};

use graph::{MOST_VERTICES, Shape};
use method::LEVEL;

// The price of edge e in points: where it is chosen, what its weight is above its ends' prices.
fn edge_price_of(
    s: Shape,
    row: &[u32],
    column: &[u32],
    weight: &[i32],
    chosen: &[u8],
    price: &[u32; MOST_VERTICES],
    e: usize,
) -> u32
    requires payable { Payable (graph_of s row.now column.now weight.now) chosen.now (entries price.now) }
    requires e_lt_edges { e < s.edges }
    ensures { (result ≡ edge_price_of (graph_of s row.now column.now weight.now) chosen.now (entries price.now) e) × (result ≤ top_value) }
{
    if chosen[e] == 0 {
        return 0;
    }
    let ends = method::ends_at(s, row, column, e);
    let cost = price[ends.first] + price[ends.second];
    method::value_at(weight, e) - cost
}

// The prices of all edges, in half points.
pub fn edge_prices(
    s: Shape,
    row: &[u32],
    column: &[u32],
    weight: &[i32],
    chosen: &[u8],
    price: &[u32; MOST_VERTICES],
    edge_price: &mut [i32],
)
    requires payable { Payable (graph_of s row.now column.now weight.now) chosen.now (entries price.now) }
    requires edge_price_len { length edge_price.old ≡ s.edges }
    ensures { (e : ℕ) → e < s.edges → get_or edge_price.new e (pos 0) ≡ half_points (pos (edge_price_of (graph_of s row.now column.now weight.now) chosen.now (entries price.now) e)) }
{
    for e in 0..edge_price.len() {
        let k = edge_price_of(s, row, column, weight, chosen, price, e);
        integers::put_natural(edge_price, e, 2 * k);
    }
}

// The prices of all vertices, in half points: takes the level off each and doubles it.
pub fn vertex_prices(price: &[u32; MOST_VERTICES], vertex_price: &mut [i32])
    requires vertex_price_len_bound { length vertex_price.old ≤ most_vertices }
    requires by_index { (v : ℕ) → v < length vertex_price.old → (level ≤ entries price.now v) × (entries price.now v ≤ top_price) }
    ensures { (v : ℕ) → v < length vertex_price.old → get_or vertex_price.new v (pos 0) ≡ half_points (pos (entries price.now v - level)) }
{
    for v in 0..vertex_price.len() {
        let k = price[v] - LEVEL;
        integers::put_natural(vertex_price, v, 2 * k);
    }
}
