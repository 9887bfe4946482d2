// The numbers of a measuring, and the half points that they count in.
#![tactic(auto)]

ghost use Rattle.std.specs.Prelude.{◌≡◌, ◌+◌, ◌*◌, ◌^◌};
ghost use Rattle.integers.specs.Integer.{up, dn, Within};
ghost use Rattle.dual.specs.Gap.{half_points};

// The numbers of a measuring: the subgraph's weight (merit) in points, and in half points the prices' total, the four slacks (leftovers) and the gap.
#[derive(Clone, Copy, Debug, PartialEq, Eq)]
pub struct Measures {
    pub weight: i64,
    pub total: i64,
    pub vertices: i64,
    pub sets: i64,
    pub edges: i64,
    pub cover: i64,
    pub gap: i64,
}

// A number of points in half points.
pub fn half_points(x: i64) -> i64
    requires { Within (2 ^ 60) x }
    ensures { (result ≡ half_points x) × Within (2 * (up x + dn x)) result }
{
    integers::add(x, x)
}
