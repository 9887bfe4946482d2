// What the searches are lent: the kept edges of each row vertex, and where the list of each vertex starts and stops.
#![tactic(auto)]

ghost use Rattle.std.specs.Prelude.{ℕ, ◌+◌, ◌-◌, ◌≤◌, ◌<◌, ◌≡◌, cond, length, get_or, set};
ghost use Rattle.graph.specs.Limits.{most_vertices, most_edges};
ghost use Rattle.graph.specs.Graph.{graph_of, vertices_in};
ghost use Rattle.graph.specs.Index.{index_of};
ghost use Rattle.method.specs.Method.{Solvable};
ghost use Rattle.method.specs.Lists.{starts, stops, leasts, edges, heads, values, keeps, Kept};
ghost use Rattle.arcs.specs.Arcs.{listed_value, head_vertex, keeps_in, listed_edge, Keepable, Readable, KeptRow, SameArcs, SameBounds, ListsBegun};

use graph::{MOST_EDGES, Shape};
use integers::either;
use method::{KeptEdge, Table, WEIGHTLESS};

// The edge at place k of an index of n vertices, where the places follow the n + 1 offsets.
fn edge_at(index: &[u32], n: usize, k: u32) -> usize
    requires { (n ≤ most_vertices) × (n + 1 + k < length index.now) × (0 < get_or index.now (n + 1 + k) 0) }
    ensures { result + 1 ≡ get_or index.now (n + 1 + k) 0 }
{
    (index[n + 1 + k as usize] - 1) as usize
}

// Stores edge e with its column vertex and its weight at place k, and answers the next place: the same again where the edge is not kept. Its row vertex has
// this least.
fn keep_edge(
    rows: u32,
    column: &[u32],
    weight: &[i32],
    table: &Table,
    arcs: &mut [KeptEdge; MOST_EDGES],
    least: u32,
    k: u32,
    e: usize,
) -> u32
    requires { (k < most_edges) × Keepable rows column.now weight.now e }
    ensures stored { arcs.new ≡ set arcs.old k (record { edge = e; head = head_vertex rows column.now e; value = listed_value weight.now e }) }
    ensures value { result ≡ cond (keeps_in rows column.now weight.now table.now least e) (k + 1) k }
{
    let head = rows + column[e] - 1;
    let value = method::value_at(weight, e);
    let low = table.least[head as usize];
    arcs[k as usize] = KeptEdge {
        edge: e as u32,
        head,
        value,
    };
    integers::pick(
        either(value > WEIGHTLESS, either(least > 0, low > 0)),
        k + 1,
        k,
    )
}

// Lists the kept edges of row vertex r, which the index gives, from its offset on, and answers where they stop.
fn keep_row(
    s: Shape,
    column: &[u32],
    weight: &[i32],
    index: &[u32],
    table: &Table,
    arcs: &mut [KeptEdge; MOST_EDGES],
    r: usize,
) -> u32
    requires r_bound { (r < vertices_in s) × (vertices_in s ≤ most_vertices) × (vertices_in s < length index.now) }
    requires r_bound_2 { get_or index.now r 0 ≤ get_or index.now (r + 1) 0 }
    requires by_index { (i : ℕ) → get_or index.now r 0 ≤ i → i < get_or index.now (r + 1) 0 → Readable s.rows (vertices_in s) column.now weight.now index.now i }
    ensures kept_row { KeptRow s.rows column.now weight.now (keeps_in s.rows column.now weight.now table.now (leasts table.now r)) (listed_edge index.now (vertices_in s)) (get_or index.now r 0) (get_or index.now (r + 1) 0) arcs.new result }
    ensures same_arcs { SameArcs (get_or index.now r 0) arcs.old arcs.new }
{
    let n = s.vertex_count() as usize;
    let least = table.least[r];
    let mut k = index[r];
    for i in index[r]..index[r + 1] {
        let e = edge_at(index, n, i);
        k = keep_edge(s.rows, column, weight, table, arcs, least, k, e);
    }
    k
}

// Lists the kept edges of each row vertex, and puts where its list starts and stops.
pub fn keep_rows(
    s: Shape,
    row: &[u32],
    column: &[u32],
    weight: &[i32],
    index: &[u32],
    table: &mut Table,
    arcs: &mut [KeptEdge; MOST_EDGES],
)
    requires solvable { Solvable (graph_of s row.now column.now weight.now) }
    requires index_value { index.now ≡ index_of (graph_of s row.now column.now weight.now) }
    ensures kept { Kept (graph_of s row.now column.now weight.now) (keeps (graph_of s row.now column.now weight.now) (leasts table.old)) (starts table.new) (stops table.new) (edges arcs.new) (heads arcs.new) (values arcs.new) s.rows }
    ensures same_bounds { SameBounds table.old table.new }
{
    for r in 0..s.rows as usize {
        let last = keep_row(s, column, weight, index, table, arcs, r);
        table.start[r] = index[r];
        table.stop[r] = last;
    }
}

// Puts where the list of each column vertex starts: at its offset, counted from that of the first column vertex.
pub fn begin_lists(
    s: Shape,
    row: &[u32],
    column: &[u32],
    weight: &[i32],
    index: &[u32],
    table: &mut Table,
)
    requires solvable { Solvable (graph_of s row.now column.now weight.now) }
    requires index_value { index.now ≡ index_of (graph_of s row.now column.now weight.now) }
    ensures { ListsBegun (graph_of s row.now column.now weight.now) table.old table.new (vertices_in s) }
{
    let n = s.vertex_count() as usize;
    for c in s.rows as usize..n {
        table.start[c] = index[c] - index[s.rows as usize];
    }
}
