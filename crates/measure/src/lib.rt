// The measuring call: a subgraph (plan) measured against prices.
#![tactic(auto)]

ghost use Rattle.std.specs.Prelude.{ℕ, ◌+◌, ◌*◌, ◌^◌, ◌≤◌, ◌<◌, ◌≡◌, true, ◌&&◌, [], ◌∷◌, eqb, pos, length, get_or, Ok};
ghost use Rattle.std.specs.Int.Signed.{le_z};
ghost use Rattle.integers.specs.Integer.{Within};
ghost use Rattle.graph.specs.declared.Fault.TheVariants.{Degree};
ghost use Rattle.graph.specs.Limits.{most_vertices, most_edges, vertex_words, edge_words};
ghost use Rattle.graph.specs.Refusal.{each, passing};
ghost use Rattle.graph.specs.Graph.{graph_of, vertices_in, bound_at};
ghost use Rattle.graph.specs.Passed.{Bounded, MarksHold};
ghost use Rattle.dual.specs.Prices.{prices_of};
ghost use Rattle.dual.specs.Measure as dual-measure;
ghost use Rattle.dual.specs.Measure.{price_test};
ghost use Rattle.sums.specs.Lent.{prices_in, PricesLent};
ghost use Rattle.measure.specs.Shown.{lengths_besides, subgraph_tests, SubgraphShown, yields_later, yields_covered};
ghost use Rattle.measure.specs.Tables.{Addable, Tabled, total_by, measures_by};

use dual::Measures;
use graph::{
    EDGE_WORDS, Fault, MOST_EDGES, MOST_SETS, MOST_VERTICES, Refusal, Shape, VERTEX_WORDS,
};
use sets::OddSets;
use sums::Prices;

// The degrees, the loads of the odd sets, and how many chosen edges each of them covers.
#[derive(Clone, Copy)]
struct Tables {
    degree: [u32; MOST_VERTICES],
    load: [u32; MOST_SETS],
    covered: [u32; MOST_SETS],
}

// Whether bounds, marks, prices and odd sets have just the lengths that n, m and the number of sets give.
fn others_match(s: Shape, bound: &[i32], chosen: &[u8], prices: Prices) -> bool
    ensures { result ≡ lengths_besides (graph_of s [] [] []) bound.now chosen.now (prices_in prices.entry) }
{
    let n = s.vertex_count() as usize;
    let m = s.edges as usize;
    let sets = prices.sets as usize;
    bound.len() == n
        && chosen.len() == m
        && prices.vertex.len() == n
        && prices.edge.len() == m
        && prices.set.len() == sets
        && prices.marks.vertices.len() == VERTEX_WORDS * sets
        && prices.marks.edges.len() == EDGE_WORDS * sets
}

// The tests of the lengths, of which others tells the rest, of the graph's numbers, the bounds and the marks, in their order.
fn check_subgraph(
    s: Shape,
    row: &[u32],
    column: &[u32],
    weight: &[i32],
    bound: &[i32],
    chosen: &[u8],
    others: bool,
) -> Result<(), Refusal>
    requires { others ≡ true → (length bound.now ≡ vertices_in s) × (length chosen.now ≡ s.edges) }
    ensures { result ≡ passing (subgraph_tests (graph_of s row.now column.now weight.now) bound.now chosen.now others) (Ok tt) }
{
    lent::check_lent(s, row, column, weight, others)?;
    checks::check_each(Fault::Bound, lowest::lowest_bound(bound))?;
    checks::check_each(Fault::Mark, lowest::lowest_mark(chosen))
}

// The tests of the degrees and the prices, in their order.
fn check_prices(degree: [u32; MOST_VERTICES], bound: &[i32], prices: Prices) -> Result<(), Refusal>
    requires { (length bound.now ≤ most_vertices) × (length prices.vertex.now + (length prices.edge.now + length prices.set.now) < 2 ^ 40) }
    ensures { result ≡ passing (each Degree (length bound.now) (λ v. le_z (pos (get_or degree v 0)) (bound_at bound.now v)) ∷ price_test (prices_in prices.entry) ∷ []) (Ok tt) }
{
    checks::check_each(Fault::Degree, lowest::lowest_over(degree, bound))?;
    let broken = lowest::lowest_price(prices.vertex, prices.edge, prices.set);
    checks::check_each(Fault::Price, broken)
}

// The prices' total.
fn total_of(s: Shape, bound: &[i32], prices: Prices, load: [u32; MOST_SETS]) -> i64
    requires s_bound { (vertices_in s ≤ most_vertices) × Bounded (vertices_in s) bound.now × (s.edges ≤ most_edges) }
    requires prices_lent { PricesLent s (prices_in prices) × ((k : ℕ) → k < prices.sets → get_or load k 0 ≤ 2 ^ 16) }
    ensures { (result ≡ total_by (graph_of s [] [] []) bound.now (prices_in prices.entry) load) × Within (2 ^ 60) result }
{
    let vertices = sums::vertex_total(s, bound, prices.vertex);
    let odd = sums::set_total(prices.sets, load, prices.set);
    let own = sums::edge_total(s.edges, prices.edge);
    terms::total_parts(vertices, odd, own)
}

// The seven numbers, from the tables and the cover of each edge.
fn numbers(
    s: Shape,
    weight: &[i32],
    bound: &[i32],
    chosen: &[u8],
    prices: Prices,
    tables: Tables,
    cover: &[i64; MOST_EDGES],
) -> Measures
    requires s_bound { (vertices_in s ≤ most_vertices) × Bounded (vertices_in s) bound.now × (s.edges ≤ most_edges) × (length weight.now ≡ s.edges) × MarksHold s.edges chosen.now }
    requires prices_lent { PricesLent s (prices_in prices) × Addable (vertices_in s) prices.sets tables × ((e : ℕ) → e < s.edges → Within (2 ^ 36) (get_or cover.now e (pos 0))) }
    ensures { result ≡ measures_by (graph_of s [] [] weight.now) bound.now chosen.now (prices_in prices.entry) tables cover.now }
{
    let total = total_of(s, bound, prices, tables.load);
    let chosen_weight = sums::weight_of(s.edges, weight, chosen);
    Measures {
        weight: chosen_weight,
        total,
        vertices: sums::vertex_slack(s, tables.degree, bound, prices.vertex),
        sets: sums::set_slack(prices.sets, tables.load, tables.covered, prices.set),
        edges: sums::edge_slack(s.edges, chosen, prices.edge),
        cover: sums::cover_slack(s.edges, cover, weight, chosen),
        gap: terms::gap_between(total, chosen_weight),
    }
}

// The end of the measuring call, from the tables: the test of the cover, and the numbers.
fn measure_tabled(
    s: Shape,
    row: &[u32],
    column: &[u32],
    weight: &[i32],
    bound: &[i32],
    chosen: &[u8],
    prices: Prices,
    tables: Tables,
) -> Result<Measures, Refusal>
    requires subgraph_shown { SubgraphShown (graph_of s row.now column.now weight.now) bound.now chosen.now (prices_in prices) }
    requires tabled { Tabled (graph_of s row.now column.now weight.now) bound.now chosen.now (prices_in prices) tables }
    ensures { result ≡ yields_covered (graph_of s row.now column.now weight.now) bound.now chosen.now (prices_in prices.entry) }
{
    let mut cover = [0; MOST_EDGES];
    sums::cover_table(s, row, column, prices, &mut cover);
    checks::check_each(
        Fault::Uncovered,
        sums::lowest_uncovered(s.edges, weight, &cover),
    )?;
    Ok(numbers(s, weight, bound, chosen, prices, tables, &cover))
}

// The rest of the measuring call, once the lengths, the graph, the bounds and the marks have passed: the tests of the degrees, the prices and the odd
// sets, and what follows from their tables.
fn measure_passed(
    s: Shape,
    row: &[u32],
    column: &[u32],
    weight: &[i32],
    bound: &[i32],
    chosen: &[u8],
    prices: Prices,
) -> Result<Measures, Refusal>
    requires { SubgraphShown (graph_of s row.now column.now weight.now) bound.now chosen.now (prices_in prices) }
    ensures { result ≡ yields_later (graph_of s row.now column.now weight.now) bound.now chosen.now (prices_in prices.entry) }
{
    let degree = graph::degrees(s, row, column, chosen);
    check_prices(degree, bound, prices)?;
    let load = prices.marks.load_table(s, bound, prices.sets);
    let broken = prices.marks.lowest_set(s, row, column, load, prices.sets);
    checks::check_each(Fault::OddSet, broken)?;
    let covered = prices
        .marks
        .covered_table(s, row, column, chosen, prices.sets);
    let tables = Tables {
        degree,
        load,
        covered,
    };
    measure_tabled(s, row, column, weight, bound, chosen, prices, tables)
}

// Measures a subgraph against prices. Of odd sets the words `set_vertices`, 2 a set, mark vertices, and `set_edges`, 16 a set, mark edges.
pub fn measure(
    s: Shape,
    row: &[u32],
    column: &[u32],
    weight: &[i32],
    bound: &[i32],
    chosen: &[u8],
    vertex_price: &[i32],
    edge_price: &[i32],
    sets: u32,
    set_price: &[i32],
    set_vertices: &[u64],
    set_edges: &[u64],
) -> Result<Measures, Refusal>
    ensures { result ≡ dual-measure.measure (graph_of s row.now column.now weight.now) bound.now chosen.now
        (prices_of vertex_price.now edge_price.now sets set_price.now set_vertices.now set_edges.now) }
{
    let prices = Prices {
        vertex: vertex_price,
        edge: edge_price,
        sets,
        set: set_price,
        marks: OddSets {
            vertices: set_vertices,
            edges: set_edges,
        },
    };
    let others = others_match(s, bound, chosen, prices);
    check_subgraph(s, row, column, weight, bound, chosen, others)?;
    measure_passed(s, row, column, weight, bound, chosen, prices)
}
