// What stands at positions of a lent index, and where two lists differ.
#![tactic(auto)]

ghost use Rattle.std.specs.Prelude.{◌+◌, ◌^◌, ◌≤◌, ◌<◌, ◌≡◌, true, length, get_or};
ghost use Rattle.graph.specs.Limits.{most_vertices, most_edges, most_index};
ghost use Rattle.positions.specs.Positions.{StandsNext, AddsUp, LowestUnequal};

use graph::MOST_VERTICES;

// The lowest of the first `count` positions at which two lists differ.
pub fn lowest_unequal(index: &[u32], own: &[u32], count: usize) -> Option<usize>
    requires { (count ≤ length index.now) × (count ≤ length own.now) }
    ensures { LowestUnequal index.now own.now count (result) }
{
    (0..count).find(|k| index[*k] != own[*k])
}

// Whether a number stands at the next place of vertex v: after its offset and the edges of it that were counted. It is counted then.
pub fn stands_at(
    index: &[u32],
    count: &mut [u32; MOST_VERTICES],
    v: usize,
    from: usize,
    number: u32,
) -> bool
    requires v_lt_most_vertices { (v < most_vertices) × (v < length index.now) × (length index.now ≤ most_index) }
    requires from_le_most_index { (from ≤ most_index) × (get_or count.old v 0 ≤ most_edges) }
    ensures { StandsNext index.now count.old count.new v from number result }
{
    let counted = count[v];
    let at = from + index[v] as usize + counted as usize;
    if at < index.len() {
        count[v] = counted + 1;
        index[at] == number
    } else {
        false
    }
}

// Whether the offsets begin with 0, and each is the one before it and the edges counted there.
pub fn adds_up(index: &[u32], count: [u32; MOST_VERTICES], n: usize) -> bool
    requires { (n ≤ most_vertices) × (n < length index.now) }
    ensures { result ≡ true → AddsUp index.now count n }
{
    index[0] == 0
        && (0..n).all(|v| u64::from(index[v]) + u64::from(count[v]) == u64::from(index[v + 1]))
}
