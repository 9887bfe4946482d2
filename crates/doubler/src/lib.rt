// The doubled graph of a general graph: its shape, its edges, and the sums of its prices.
#![tactic(auto)]

ghost use Rattle.std.specs.Prelude.{ℕ, ◌+◌, ◌≤◌, ◌<◌, ◌≡◌, ◌++◌, ◌∷◌, [], pos, ◌+ℤ◌, length, get_or, take};
ghost use Rattle.graph.specs.declared.Kind.TheVariants.{Bipartite};
ghost use Rattle.graph.specs.Limits.{most_doubled_edges};
ghost use Rattle.graph.specs.Doubled.{may_double};
ghost use Rattle.dual.specs.Gap.{half_points};
ghost use Rattle.dual.specs.Solve.{SolverPrice};

use graph::{Kind, MOST_DOUBLED_EDGES, MOST_SIDE, Shape};
use integers::both;

// Whether a graph of this shape is doubled.
pub fn can_double(s: Shape) -> bool
    ensures { result ≡ may_double s.kind s.rows s.edges }
{
    match s.kind {
        Kind::Bipartite => false,
        Kind::General => both(s.rows <= MOST_SIDE, s.edges <= MOST_DOUBLED_EDGES),
    }
}

// The shape of the doubled graph.
pub fn doubled_shape(s: Shape) -> Shape
    requires { s.edges ≤ most_doubled_edges }
    ensures { (result.kind ≡ Bipartite) × (result.rows ≡ s.rows) × (result.columns ≡ s.rows) × (result.edges ≡ s.edges + s.edges) }
{
    Shape {
        kind: Kind::Bipartite,
        rows: s.rows,
        columns: s.rows,
        edges: s.edges + s.edges,
    }
}

// The item at i of two lists, one after the other.
fn item_of<T: Copy>(first: &[T], second: &[T], i: usize) -> T
    requires { i < length first.now + length second.now }
    ensures { take (i + 1) (first.now ++ second.now) ≡ take i (first.now ++ second.now) ++ result ∷ [] }
{
    let n = first.len();
    if i < n { first[i] } else { second[i - n] }
}

// Sets `out` to two lists, one after the other.
pub fn join<T: Copy>(first: &[T], second: &[T], out: &mut [T])
    requires { length out.old ≡ length first.now + length second.now }
    ensures { out.new ≡ first.now ++ second.now }
{
    for i in 0..out.len() {
        out[i] = item_of(first, second, i);
    }
}

// A price of the solver's in points.
fn points_at(prices: &[i32], k: usize) -> u32
    requires k_in_bounds { k < length prices.now }
    requires solver_price { SolverPrice (get_or prices.now k (pos 0)) }
    ensures { (half_points (pos result) ≡ get_or prices.now k (pos 0)) × (result ≤ 1000000) }
{
    integers::natural_at(prices, k) / 2
}

// Sets each price of `out` to the sum in points, as half points, of the two prices that its vertex or edge has in the doubled graph.
pub fn sum_points(prices: &[i32], out: &mut [i32])
    requires prices_len { length prices.now ≡ length out.old + length out.old }
    requires by_index { (k : ℕ) → k < length prices.now → SolverPrice (get_or prices.now k (pos 0)) }
    ensures { (k : ℕ) → k < length out.old → half_points (get_or out.new k (pos 0)) ≡ get_or prices.now k (pos 0) +ℤ get_or prices.now (length out.old + k) (pos 0) }
{
    let n = out.len();
    for k in 0..n {
        let sum = points_at(prices, k) + points_at(prices, n + k);
        integers::put_natural(out, k, sum);
    }
}
