// The sums of the measuring call: the subgraph's weight, the parts of the prices' total, the cover of every edge, and the four slacks.
// Weights, bounds and prices are 32 bits wide, and their sums 64: a term is within 2 ^ 48, and a sum of at most 1,024 terms within 2 ^ 58.
// Odd sets count by k.
#![tactic(auto)]

ghost use Rattle.std.specs.Prelude.{ℕ, ℤ, ◌-◌, ◌*◌, ◌/◌, ◌+◌, ◌^◌, ◌≤◌, ◌<◌, ◌≡◌, [], pos, ◌+ℤ◌, ◌-ℤ◌, ◌*ℤ◌, length, get_or, ◌≤ℤ◌};
ghost use Rattle.std.specs.Int.Signed.{le_z};
ghost use Rattle.integers.specs.Integer.{Within};
ghost use Rattle.integers.specs.Sum.{sumℤ};
ghost use Rattle.graph.specs.Limits.{most_vertices, most_edges, greatest_bound, most_sets, vertex_words, edge_words};
ghost use Rattle.graph.specs.Graph.{graph_of, vertices_in, bound_at};
ghost use Rattle.graph.specs.Refusal.{lowest};
ghost use Rattle.graph.specs.Subgraph.{mark_at};
ghost use Rattle.graph.specs.Passed.{Sound, Bounded, MarksHold};
ghost use Rattle.dual.specs.Sets.{one};
ghost use Rattle.dual.specs.Gap.{half_points, cover_of};
ghost use Rattle.sets.specs.Words.{marks_of, HasSet, covers_by};
ghost use Rattle.sums.specs.Lent.{prices_in, PricesLent};

use graph::{Ends, MOST_EDGES, MOST_SETS, MOST_VERTICES, Shape};
use sets::OddSets;

// The prices of vertices and of edges; the number of odd sets, with their prices and the words that mark them.
#[derive(Clone, Copy)]
pub struct Prices<'a> {
    pub vertex: &'a [i32],
    pub edge: &'a [i32],
    pub sets: u32,
    pub set: &'a [i32],
    pub marks: OddSets<'a>,
}

// The sum of at most 1,024 terms, those of 0 .. n - 1, each within 2 ^ 48.
fn sum_of<F: Fn(usize) -> i64>(n: usize, term: F) -> i64
    requires few { n ≤ most_edges }
    requires callable { (i : ℕ) → i < n → F.pre term i }
    requires small { (i : ℕ) (x : ℤ) → i < n → F.post term i x → Within (2 ^ 48) x }
    ensures { (f : ℕ → ℤ) (most : ℕ) → ((i : ℕ) (x : ℤ) → i < n → F.post term i x → (x ≡ f i) × Within most x) → (result ≡ sumℤ n f) × Within (most * n) result }
{
    let mut total = 0;
    for i in 0..n {
        total += term(i);
    }
    total
}

// The weight of edge e where it is chosen, else 0.
fn chosen_weight(weight: &[i32], chosen: &[u8], e: usize) -> i64
    requires { (e < length weight.now) × (e < length chosen.now) × (mark_at chosen.now e ≤ 1) }
    ensures { (result ≡ pos (mark_at chosen.now e) *ℤ get_or weight.now e (pos 0)) × Within (2 ^ 48) result }
{
    integers::if_chosen(chosen[e], integers::element(weight, e))
}

// The weight of a subgraph.
pub fn weight_of(edges: u32, weight: &[i32], chosen: &[u8]) -> i64
    requires { (edges ≤ most_edges) × (length weight.now ≡ edges) × MarksHold edges chosen.now }
    ensures { (result ≡ sumℤ edges (λ e. pos (mark_at chosen.now e) *ℤ get_or weight.now e (pos 0))) × Within (2 ^ 58) result }
{
    sum_of(edges as usize, |e| chosen_weight(weight, chosen, e))
}

// The bound of vertex v, as a natural number.
fn bound_of(bound: &[i32], v: usize) -> u32
    requires { (v < length bound.now) × ((pos 0 ≤ℤ bound_at bound.now v) × (bound_at bound.now v ≤ℤ pos greatest_bound)) }
    ensures { (pos result ≡ bound_at bound.now v) × (result ≤ greatest_bound) }
{
    integers::natural(bound[v])
}

// The price of vertex v times its bound.
fn bound_price(bound: &[i32], vertex_price: &[i32], v: usize) -> i64
    requires { (v < length bound.now) × ((pos 0 ≤ℤ bound_at bound.now v) × (bound_at bound.now v ≤ℤ pos greatest_bound)) × (v < length vertex_price.now) }
    ensures { (result ≡ bound_at bound.now v *ℤ get_or vertex_price.now v (pos 0)) × Within (2 ^ 48) result }
{
    integers::scale(bound_of(bound, v), integers::element(vertex_price, v))
}

// The part of the total that the vertices have: bound times price.
pub fn vertex_total(s: Shape, bound: &[i32], vertex_price: &[i32]) -> i64
    requires { (vertices_in s ≤ most_vertices) × Bounded (vertices_in s) bound.now × (length vertex_price.now ≡ vertices_in s) }
    ensures { (result ≡ sumℤ (vertices_in s) (λ v. bound_at bound.now v *ℤ get_or vertex_price.now v (pos 0))) × Within (2 ^ 58) result }
{
    let n = s.vertex_count() as usize;
    sum_of(n, |v| bound_price(bound, vertex_price, v))
}

// The part of the total that the edges have: all their prices.
pub fn edge_total(edges: u32, edge_price: &[i32]) -> i64
    requires { (edges ≤ most_edges) × (length edge_price.now ≡ edges) }
    ensures { (result ≡ sumℤ edges (λ e. get_or edge_price.now e (pos 0))) × Within (2 ^ 58) result }
{
    sum_of(edges as usize, |e| integers::element(edge_price, e))
}

// The price of odd set k times its capacity.
fn capacity_price(load: u32, set_price: &[i32], k: usize) -> i64
    requires { (load ≤ 2 ^ 16) × (k < length set_price.now) }
    ensures { (result ≡ pos (load / 2) *ℤ get_or set_price.now k (pos 0)) × Within (2 ^ 48) result }
{
    integers::scale(terms::capacity(load), integers::element(set_price, k))
}

// The part of the total that the odd sets have: capacity times price.
pub fn set_total(sets: u32, load: [u32; MOST_SETS], set_price: &[i32]) -> i64
    requires { (sets ≤ most_sets) × (length set_price.now ≡ sets) × ((k : ℕ) → k < sets → get_or load k 0 ≤ 2 ^ 16) }
    ensures { (result ≡ sumℤ sets (λ k. pos (get_or load k 0 / 2) *ℤ get_or set_price.now k (pos 0))) × Within (2 ^ 58) result }
{
    sum_of(sets as usize, |k| capacity_price(load[k], set_price, k))
}

// The price of vertex v times its residual bound (unused limit).
fn residual_price(degree: u32, bound: &[i32], vertex_price: &[i32], v: usize) -> i64
    requires v_in_bounds { (v < length bound.now) × ((pos 0 ≤ℤ bound_at bound.now v) × (bound_at bound.now v ≤ℤ pos greatest_bound)) × (v < length vertex_price.now) }
    requires degree_bound { degree ≤ 2 ^ 16 }
    ensures { (result ≡ get_or vertex_price.now v (pos 0) *ℤ (bound_at bound.now v -ℤ pos degree)) × Within (2 ^ 48) result }
{
    terms::price_of_rest(
        integers::element(vertex_price, v),
        bound_of(bound, v),
        degree,
    )
}

// The slack of vertices, from their degrees.
pub fn vertex_slack(
    s: Shape,
    degree: [u32; MOST_VERTICES],
    bound: &[i32],
    vertex_price: &[i32],
) -> i64
    requires s_bound { (vertices_in s ≤ most_vertices) × Bounded (vertices_in s) bound.now × (length vertex_price.now ≡ vertices_in s) }
    requires by_index { (v : ℕ) → v < vertices_in s → get_or degree v 0 ≤ 2 ^ 16 }
    ensures { (result ≡ sumℤ (vertices_in s) (λ v. get_or vertex_price.now v (pos 0) *ℤ (bound_at bound.now v -ℤ pos (get_or degree v 0)))) × Within (2 ^ 58) result }
{
    let n = s.vertex_count() as usize;
    sum_of(n, |v| residual_price(degree[v], bound, vertex_price, v))
}

// The slack of odd sets, from their loads and from how many chosen edges each covers.
pub fn set_slack(
    sets: u32,
    load: [u32; MOST_SETS],
    covered: [u32; MOST_SETS],
    set_price: &[i32],
) -> i64
    requires sets_le_most_sets { (sets ≤ most_sets) × (length set_price.now ≡ sets) }
    requires by_index { (k : ℕ) → k < sets → (get_or load k 0 ≤ 2 ^ 16) × (get_or covered k 0 ≤ 2 ^ 16) }
    ensures { (result ≡ sumℤ sets (λ k. get_or set_price.now k (pos 0) *ℤ (pos (get_or load k 0 / 2) -ℤ pos (get_or covered k 0)))) × Within (2 ^ 58) result }
{
    sum_of(sets as usize, |k| {
        terms::price_of_rest(
            integers::element(set_price, k),
            terms::capacity(load[k]),
            covered[k],
        )
    })
}

// The price of edge e where it is not chosen, else 0.
fn unchosen_price(chosen: &[u8], edge_price: &[i32], e: usize) -> i64
    requires { (e < length edge_price.now) × (e < length chosen.now) × (mark_at chosen.now e ≤ 1) }
    ensures { (result ≡ pos (1 - mark_at chosen.now e) *ℤ get_or edge_price.now e (pos 0)) × Within (2 ^ 48) result }
{
    integers::if_chosen(1 - chosen[e], integers::element(edge_price, e))
}

// The slack of edges: the prices of edges not chosen.
pub fn edge_slack(edges: u32, chosen: &[u8], edge_price: &[i32]) -> i64
    requires { (edges ≤ most_edges) × (length edge_price.now ≡ edges) × MarksHold edges chosen.now }
    ensures { (result ≡ sumℤ edges (λ e. pos (1 - mark_at chosen.now e) *ℤ get_or edge_price.now e (pos 0))) × Within (2 ^ 58) result }
{
    sum_of(edges as usize, |e| unchosen_price(chosen, edge_price, e))
}

// The prices of all odd sets that cover edge e, added up.
fn set_cover(prices: Prices, e: usize, ends: Ends) -> i64
    requires e_lt_most_edges { (e < most_edges) × (ends.first < most_vertices) × (ends.second < most_vertices) }
    requires sets_le_most_sets { (prices.sets ≤ most_sets) × (length prices.set.now ≡ prices.sets) }
    requires words_len { (length prices.marks.vertices.now ≡ vertex_words * prices.sets) × (length prices.marks.edges.now ≡ edge_words * prices.sets) }
    ensures { (result ≡ sumℤ prices.entry.sets (λ k. pos (one (covers_by (marks_of prices.entry.marks) k e ends.first ends.second)) *ℤ get_or prices.entry.set.now k (pos 0)))
        × Within (2 ^ 35) result }
{
    sum_of(prices.sets as usize, |k| {
        integers::if_chosen(
            u8::from(prices.marks.covers(k, e, ends)),
            integers::element(prices.set, k),
        )
    })
}

// The prices of an edge's ends and its own, added up.
fn own_cover(prices: Prices, e: usize, ends: Ends) -> i64
    requires { (ends.first < length prices.vertex.now) × (ends.second < length prices.vertex.now) × (e < length prices.edge.now) }
    ensures { (result ≡ get_or prices.entry.vertex.now ends.first (pos 0) +ℤ get_or prices.entry.vertex.now ends.second (pos 0) +ℤ get_or prices.entry.edge.now e (pos 0)) × Within (2 ^ 33) result }
{
    let first = integers::element(prices.vertex, ends.first);
    let second = integers::element(prices.vertex, ends.second);
    first + second + integers::element(prices.edge, e)
}

// Sets the table to the cover of every edge: the prices of its ends, its own, and of all odd sets that cover it.
pub fn cover_table(
    s: Shape,
    row: &[u32],
    column: &[u32],
    prices: Prices,
    table: &mut [i64; MOST_EDGES],
)
    requires sound { Sound s row.now column.now }
    requires prices_lent { PricesLent s (prices_in prices) }
    requires words_len { (length prices.marks.vertices.now ≡ vertex_words * prices.sets) × (length prices.marks.edges.now ≡ edge_words * prices.sets) × (length table.old ≡ most_edges) }
    ensures { (e : ℕ) → e < s.edges → (get_or table.new e (pos 0) ≡ cover_of (graph_of s row.now column.now []) (prices_in prices.entry) e) × Within (2 ^ 36) (get_or table.new e (pos 0)) }
{
    for e in 0..row.len() {
        let ends = s.ends_of(row[e], column[e]);
        table[e] = own_cover(prices, e, ends) + set_cover(prices, e, ends);
    }
}

// The lowest edge whose worth, its weight in half points, is over its cover.
pub fn lowest_uncovered(edges: u32, weight: &[i32], cover: &[i64; MOST_EDGES]) -> Option<usize>
    requires { (edges ≤ most_edges) × (length weight.now ≡ edges) }
    ensures { result ≡ lowest edges (λ e. le_z (half_points (get_or weight.now e (pos 0))) (get_or cover.now e (pos 0))) }
{
    (0..edges as usize).find(|e| !terms::is_covered(weight, *e, cover[*e]))
}

// The slack of cover.
pub fn cover_slack(edges: u32, cover: &[i64; MOST_EDGES], weight: &[i32], chosen: &[u8]) -> i64
    requires edges_le_most_edges { (edges ≤ most_edges) × (length weight.now ≡ edges) × MarksHold edges chosen.now }
    requires by_index { (e : ℕ) → e < edges → Within (2 ^ 36) (get_or cover.now e (pos 0)) }
    ensures { (result ≡ sumℤ edges (λ e. pos (mark_at chosen.now e) *ℤ (get_or cover.now e (pos 0) -ℤ half_points (get_or weight.now e (pos 0))))) × Within (2 ^ 58) result }
{
    sum_of(
        edges as usize,
        |e| terms::excess(cover[e], weight, chosen, e),
    )
}
