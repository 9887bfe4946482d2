// The lowest item that breaks a test.
#![tactic(auto)]

ghost use Rattle.std.specs.Prelude.{◌+◌, ◌-◌, ◌≤◌, ◌<◌, ◌≡◌, ◌++◌, leb, length, get_or, pos};
ghost use Rattle.std.specs.Int.Signed.{le_z};
ghost use Rattle.integers.specs.Integer.{between};
ghost use Rattle.graph.specs.Limits.{most_vertices};
ghost use Rattle.graph.specs.Refusal.{lowest};
ghost use Rattle.graph.specs.Graph.{ends_in_range, weight_in_range, bound_in_range, bound_is_one, price_in_range};
ghost use Rattle.graph.specs.Subgraph.{degree};

use graph::{GREATEST_BOUND, GREATEST_PRICE, GREATEST_WEIGHT, LEAST_WEIGHT, MOST_VERTICES, Shape};

// The lowest edge whose weight is out of range.
pub fn lowest_weight(weight: &[i32]) -> Option<usize>
    ensures { result ≡ lowest (length weight.now) (λ e. weight_in_range (get_or weight.now e (pos 0))) }
{
    weight
        .iter()
        .position(|x| !(LEAST_WEIGHT..=GREATEST_WEIGHT).contains(x))
}

// The lowest vertex whose bound is out of range.
pub fn lowest_bound(bound: &[i32]) -> Option<usize>
    ensures { result ≡ lowest (length bound.now) (λ v. bound_in_range (get_or bound.now v (pos 0))) }
{
    bound.iter().position(|x| !(0..=GREATEST_BOUND).contains(x))
}

// The lowest vertex whose bound is not 1.
pub fn lowest_not_one(bound: &[i32]) -> Option<usize>
    ensures { result ≡ lowest (length bound.now) (λ v. bound_is_one (get_or bound.now v (pos 0))) }
{
    bound.iter().position(|x| *x != 1)
}

// The lowest number that is not from low to high.
fn lowest_outside(values: &[i32], low: i32, high: i32) -> Option<usize>
    ensures { result ≡ lowest (length values.now) (λ k. between low high (get_or values.now k (pos 0))) }
{
    values.iter().position(move |x| !(low..=high).contains(x))
}

// The lowest price that is out of range, by its position in the prices of vertices, then of edges, then of odd sets.
pub fn lowest_price(vertex_price: &[i32], edge_price: &[i32], set_price: &[i32]) -> Option<usize>
    ensures { result ≡ lowest (length (vertex_price.now ++ (edge_price.now ++ set_price.now))) (λ k. price_in_range (get_or (vertex_price.now ++ (edge_price.now ++ set_price.now)) k (pos 0))) }
{
    if let Some(k) = lowest_outside(vertex_price, 0, GREATEST_PRICE) {
        return Some(k);
    }
    if let Some(k) = lowest_outside(edge_price, 0, GREATEST_PRICE) {
        return Some(vertex_price.len() + k);
    }
    let k = lowest_outside(set_price, 0, GREATEST_PRICE)?;
    Some(vertex_price.len() + edge_price.len() + k)
}

// The lowest edge whose mark is neither 0 nor 1.
pub fn lowest_mark(chosen: &[u8]) -> Option<usize>
    ensures { result ≡ lowest (length chosen.now) (λ e. leb (get_or chosen.now e 0) 1) }
{
    chosen.iter().position(|mark| *mark > 1)
}

// The lowest edge whose ends are out of range.
pub fn lowest_ends(s: Shape, row: &[u32], column: &[u32]) -> Option<usize>
    requires { length row.now ≡ length column.now }
    ensures { result ≡ lowest (length row.now) (λ e. ends_in_range s.kind s.rows s.columns (get_or row.now e 0) (get_or column.now e 0)) }
{
    row.iter()
        .zip(column)
        .position(|(r, c)| !ranges::ends_in_range(s, *r, *c))
}

// The lowest vertex whose degree is over its bound.
pub fn lowest_over(degree: [u32; MOST_VERTICES], bound: &[i32]) -> Option<usize>
    requires { length bound.now ≤ most_vertices }
    ensures { result ≡ lowest (length bound.now) (λ v. le_z (pos (get_or degree v 0)) (get_or bound.now v (pos 0))) }
{
    bound
        .iter()
        .zip(&degree)
        .position(|(most, has)| i64::from(*has) > i64::from(*most))
}
