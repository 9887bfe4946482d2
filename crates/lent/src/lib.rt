// What a caller lends: tests of the lengths and the numbers of a graph.
#![tactic(auto)]

ghost use Rattle.std.specs.Prelude.{◌≡◌, ◌&&◌, ◌∷◌, eqb, length, Ok};
ghost use Rattle.graph.specs.declared.Fault.TheVariants.{LentLength};
ghost use Rattle.graph.specs.Refusal.{once, passing};
ghost use Rattle.graph.specs.Graph.{graph_of};
ghost use Rattle.graph.specs.Tests.{graph_lengths, graph_tests};
ghost use Rattle.graph.specs.Tests.{bounded_tests, bipartite_tests};

use graph::{Fault, Kind, Refusal, Shape};

// Whether what is lent of a graph is as long as the number of edges passed.
fn lengths_match(edges: u32, row: &[u32], column: &[u32], weight: &[i32]) -> bool
    ensures { result ≡ (eqb (length row.now) edges && eqb (length column.now) edges && eqb (length weight.now) edges) }
{
    let m = edges as usize;
    row.len() == m && column.len() == m && weight.len() == m
}

// The lengths, of which a call has tested others itself, and then the graph's numbers.
pub fn check_lent(
    s: Shape,
    row: &[u32],
    column: &[u32],
    weight: &[i32],
    others: bool,
) -> Result<(), Refusal>
    ensures { result ≡ passing (once LentLength (graph_lengths (graph_of s row.now column.now weight.now) && others) ∷ graph_tests (graph_of s row.now column.now weight.now)) (Ok tt) }
{
    checks::check_once(
        Fault::LentLength,
        lengths_match(s.edges, row, column, weight) && others,
    )?;
    checks::check_graph(s, row, column, weight)
}

// The tests of a call that takes a graph with bounds, in their order. Of the lengths it has tested others itself.
pub fn check_bounded(
    s: Shape,
    row: &[u32],
    column: &[u32],
    weight: &[i32],
    bound: &[i32],
    others: bool,
) -> Result<(), Refusal>
    ensures { result ≡ passing (bounded_tests (graph_of s row.now column.now weight.now) bound.now others) (Ok tt) }
{
    let long = bound.len() == s.vertex_count() as usize;
    check_lent(s, row, column, weight, long && others)?;
    checks::check_each(Fault::Bound, lowest::lowest_bound(bound))
}

// The tests of a call that takes a bipartite graph with bounds, in their order. Of the lengths it has tested others itself.
pub fn check_bipartite(
    s: Shape,
    row: &[u32],
    column: &[u32],
    weight: &[i32],
    bound: &[i32],
    others: bool,
) -> Result<(), Refusal>
    ensures { result ≡ passing (bipartite_tests (graph_of s row.now column.now weight.now) bound.now others) (Ok tt) }
{
    check_bounded(s, row, column, weight, bound, others)?;
    checks::check_once(Fault::NotBipartite, matches!(s.kind, Kind::Bipartite))
}
