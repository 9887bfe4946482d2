// Tests of numbers against their ranges.
#![tactic(auto)]

ghost use Rattle.std.specs.Prelude.{◌-◌, ◌<◌, ◌≡◌, ◌&&◌, ℤ, pos};
ghost use Rattle.integers.specs.Integer.{between};
ghost use Rattle.graph.specs.Graph.{shape_in_range, ends_in_range, weight_in_range, bound_in_range};
ghost use Rattle.layout.specs.NumberText.{greatest_price_by, in_range};

use graph::{
    GREATEST_BOUND, GREATEST_OLD_PRICE, GREATEST_PRICE, GREATEST_WEIGHT, Kind, LEAST_WEIGHT,
    MOST_EDGES, MOST_SIDE, MOST_VERTICES, Shape,
};
use layout::{Numbers, Rules};

// Whether the sizes are in range.
pub fn sizes_in_range(s: Shape) -> bool
    ensures { result ≡ shape_in_range s }
{
    let few = s.edges <= MOST_EDGES as u32;
    match s.kind {
        Kind::Bipartite => (1..=MOST_SIDE).contains(&s.rows)
            && (1..=MOST_SIDE).contains(&s.columns)
            && few,
        Kind::General => (1..=MOST_VERTICES as u32).contains(&s.rows) && s.columns == s.rows && few,
    }
}

// Whether an edge's ends are in range and on the right side.
pub fn ends_in_range(s: Shape, r: u32, c: u32) -> bool
    ensures { result ≡ ends_in_range s.kind s.rows s.columns r c }
{
    let inside = (1 <= r && r <= s.rows) && (1 <= c && c <= s.columns);
    match s.kind {
        Kind::Bipartite => inside,
        Kind::General => inside && c < r,
    }
}

pub fn weight_in_range(x: i32) -> bool
    ensures { result ≡ weight_in_range x }
{
    (LEAST_WEIGHT..=GREATEST_WEIGHT).contains(&x)
}

pub fn bound_in_range(x: i32) -> bool
    ensures { result ≡ bound_in_range x }
{
    (0..=GREATEST_BOUND).contains(&x)
}

// How great a price may be by the rules.
fn greatest_price(rules: Rules) -> i32
    ensures { result ≡ pos (greatest_price_by rules) }
{
    match rules {
        Rules::New => GREATEST_PRICE,
        Rules::Old => GREATEST_OLD_PRICE,
    }
}

// The greatest number of a sort, by the rules.
fn greatest(rules: Rules, what: Numbers) -> i32
    ensures { (z : ℤ) → between (pos 0) result z ≡ in_range rules what z }
{
    match what {
        Numbers::Bounds => GREATEST_BOUND,
        Numbers::Prices => greatest_price(rules),
    }
}

pub fn number_in_range(rules: Rules, what: Numbers, z: i32) -> bool
    ensures { result ≡ in_range rules what z }
{
    (0..=greatest(rules, what)).contains(&z)
}
