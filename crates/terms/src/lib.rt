// Single terms of the measuring sums: a capacity, what is left of a price, what a cover exceeds, whether an edge is covered, the total and the gap.
#![tactic(auto)]

ghost use Rattle.std.specs.Prelude.{◌-◌, ◌*◌, ◌/◌, ◌+◌, ◌^◌, ◌≤◌, ◌<◌, ◌≡◌, pos, ◌+ℤ◌, ◌-ℤ◌, ◌*ℤ◌, length, get_or};
ghost use Rattle.std.specs.Int.Signed.{le_z};
ghost use Rattle.integers.specs.Integer.{Within};
ghost use Rattle.graph.specs.Subgraph.{mark_at};
ghost use Rattle.dual.specs.Gap.{half_points};

// The capacity of an odd set: half its load, rounded down.
pub fn capacity(load: u32) -> u32
    ensures { result ≡ load / 2 }
{
    load / 2
}

// A price times what is left of a most.
pub fn price_of_rest(price: i64, most: u32, used: u32) -> i64
    requires { (most ≤ 2 ^ 16) × (used ≤ 2 ^ 16) × Within (2 ^ 31) price }
    ensures { (result ≡ price *ℤ (pos most -ℤ pos used)) × Within (2 ^ 48) result }
{
    price * (i64::from(most) - i64::from(used))
}

// What an edge's cover exceeds its worth by where it is chosen, else 0. The weight may be negative.
pub fn excess(cover: i64, weight: &[i32], chosen: &[u8], e: usize) -> i64
    requires within { Within (2 ^ 36) cover }
    requires e_in_bounds { (e < length weight.now) × (e < length chosen.now) × (mark_at chosen.now e ≤ 1) }
    ensures { (result ≡ pos (mark_at chosen.now e) *ℤ (cover -ℤ half_points (get_or weight.now e (pos 0)))) × Within (2 ^ 48) result }
{
    let worth = dual::half_points(integers::element(weight, e));
    if chosen[e] == 1 { cover - worth } else { 0 }
}

// Whether an edge's cover reaches its worth, its weight in half points.
pub fn is_covered(weight: &[i32], e: usize, cover: i64) -> bool
    requires { e < length weight.now }
    ensures { result ≡ le_z (half_points (get_or weight.now e (pos 0))) cover }
{
    dual::half_points(integers::element(weight, e)) <= cover
}

// The parts of a total, those of vertices, of odd sets and of edges, added up.
pub fn total_parts(vertices: i64, odd: i64, own: i64) -> i64
    requires { Within (2 ^ 58) vertices × Within (2 ^ 58) odd × Within (2 ^ 58) own }
    ensures { (result ≡ vertices +ℤ odd +ℤ own) × Within (2 ^ 60) result }
{
    vertices + odd + own
}

// The gap: a total less a weight in half points.
pub fn gap_between(total: i64, weight: i64) -> i64
    requires { Within (2 ^ 60) total × Within (2 ^ 58) weight }
    ensures { result ≡ total -ℤ half_points weight }
{
    total - dual::half_points(weight)
}
