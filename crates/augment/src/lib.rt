// The walk back along an augmenting path.
#![tactic(auto)]

ghost use Rattle.std.specs.Prelude.{ℕ, ◌≤◌, ◌<◌, ◌≡◌, [], length};
ghost use Rattle.graph.specs.Limits.{most_vertices, most_edges};
ghost use Rattle.graph.specs.Graph.{graph_of};
ghost use Rattle.graph.specs.Subgraph.{mark_at, degree};
ghost use Rattle.graph.specs.Passed.{Sound};
ghost use Rattle.method.specs.Method.{Augmented};
ghost use Rattle.method.specs.Tree.{entries, naturals};
ghost use Rattle.method.specs.Lists.{nowhere, Listing};
ghost use Rattle.augment.specs.Augment.{Walkable, Ranked, Relistable, Relisted, flipped, other_end};

use graph::{MOST_EDGES, MOST_VERTICES, Shape};

// Flips an edge: it is chosen if it was not, and chosen no more if it was.
fn flip(chosen: &mut [u8], edge: usize)
    requires { (edge < length chosen.old) × (mark_at chosen.old edge ≤ 1) }
    ensures { chosen.new ≡ flipped chosen.old edge }
{
    chosen[edge] = 1 - chosen[edge];
}

// The end of an edge other than this vertex, which is one of its ends.
fn other_end(s: Shape, row: &[u32], column: &[u32], edge: usize, vertex: usize) -> usize
    requires sound { Sound s row.now column.now }
    requires edge_lt_edges { edge < s.edges }
    ensures { result ≡ other_end (graph_of s row.now column.now []) edge vertex }
{
    let ends = method::ends_at(s, row, column, edge);
    if vertex == ends.first {
        ends.second
    } else {
        ends.first
    }
}

// Lists an edge that is to be chosen, at the hole, and answers the hole; of one that is chosen it answers its place, which is the next hole.
fn relist(mark: u8, list: &mut [i32], place: &mut [u32; MOST_EDGES], hole: u32, edge: u32) -> u32
    requires { (edge < most_edges) × (mark ≡ 0 → hole < length list.old) }
    ensures { Relisted mark hole edge list.old place.old list.new place.new result }
{
    if mark > 0 {
        return place[edge as usize];
    }
    integers::put_natural(list, hole as usize, edge);
    place[edge as usize] = hole;
    hole
}

// Walks back from vertex v to the root: flips the edge by which a vertex was reached, its label, and goes on from the edge's other end. An edge that is
// chosen no more leaves a hole in its column vertex's list, and the next edge takes it; the first one takes the gap after the list. Fewer and fewer
// labels are left, so the walk ends.
pub fn augment(
    chosen: &mut [u8],
    list: &mut [i32],
    place: &mut [u32; MOST_EDGES],
    s: Shape,
    row: &[u32],
    column: &[u32],
    label: &[u32; MOST_VERTICES],
    root: usize,
    v: usize,
    gap: u32,
)
    requires ranked { Ranked s row.now column.now label.now root v most_vertices chosen.old }
    requires relistable { Relistable (graph_of s row.now column.now []) chosen.old list.old place.old v gap }
    ensures by_index { (rank : ℕ → ℕ) → Walkable s row.now column.now label.now rank root v most_vertices chosen.old → Augmented (graph_of s row.now column.now []) (entries label.now) rank root v chosen.old chosen.new }
    ensures listing { Listing (graph_of s row.now column.now []) chosen.new (degree (graph_of s row.now column.now []) chosen.new) (naturals list.new) (entries place.new) (nowhere (graph_of s row.now column.now [])) × (s.edges ≤ length place.new) }
{
    let mut vertex = v;
    let mut hole = gap;
    let mut left = MOST_VERTICES;
    while vertex != root {
        let edge = label[vertex];
        let next = other_end(s, row, column, edge as usize, vertex);
        hole = relist(chosen[edge as usize], list, place, hole, edge);
        flip(chosen, edge as usize);
        vertex = next;
        left -= 1;
    }
}
