// The scan of a settled column vertex: each chosen edge from it is looked at.
#![tactic(auto)]

ghost use Rattle.std.specs.Prelude.{◌+◌, ◌-◌, ◌≤◌, ◌<◌, ◌≡◌, length};
ghost use Rattle.graph.specs.Limits.{most_edges};
ghost use Rattle.graph.specs.Graph.{graph_of};
ghost use Rattle.method.specs.Method.{Solvable};
ghost use Rattle.method.specs.Tree.{entries, naturals};
ghost use Rattle.method.specs.Front.{far};
ghost use Rattle.method.specs.Lists.{starts, leasts};
ghost use Rattle.scan.specs.Scan.{settled_at, Spanned, list_start, list_stop, Scanning, ColumnScan};

use graph::{MOST_VERTICES, Shape};
use method::{MOST_LISTED, State, Table};
use reach::Front;

// The front once this vertex is settled, at this distance.
pub fn settled(f: Front, vertex: u32, distance: u32) -> Front
    ensures { result ≡ settled_at f vertex distance }
{
    Front {
        vertex,
        distance,
        ..f
    }
}

// The places of a list: from start to before stop.
#[derive(Clone, Copy, Debug, PartialEq, Eq)]
pub struct Span {
    pub start: u32,
    pub stop: u32,
}

// The places where the chosen edges of vertex u are listed, if it is a column vertex; the list of a row vertex is empty.
pub fn list_of(rows: u32, table: &Table, used: &[u32; MOST_VERTICES], u: usize) -> Span
    requires { Spanned rows (starts table.now) (entries used.now) most_edges u }
    ensures { (result.start ≡ list_start rows (starts table.now) u) × (result.stop ≡ list_stop rows (starts table.now) (entries used.now) u) }
{
    if u < rows as usize {
        Span { start: 0, stop: 0 }
    } else {
        Span {
            start: table.start[u],
            stop: table.start[u] + used[u],
        }
    }
}

// Looks at each chosen edge from the vertex settled last, if it is a column vertex: those that its list has.
pub fn scan_column(
    s: Shape,
    row: &[u32],
    column: &[u32],
    weight: &[i32],
    list: &[i32],
    state: &State,
    table: &Table,
    label: &mut [u32; MOST_VERTICES],
    distance: &mut [u32; MOST_VERTICES],
    order: &mut [u32; MOST_LISTED],
    first: Front,
) -> Front
    requires solvable { Solvable (graph_of s row.now column.now weight.now) }
    requires edges_in_bounds { (s.edges ≤ length list.now) × (first.distance ≤ far) × Spanned s.rows (starts table.now) (entries state.now.used) s.edges first.vertex }
    requires column_scan { ColumnScan (graph_of s row.now column.now weight.now) (entries state.now.price) (entries state.now.used) (leasts table.now) label.old distance.old order.old first (naturals list.now) (list_start s.rows (starts table.now) first.vertex) (list_stop s.rows (starts table.now) (entries state.now.used) first.vertex) }
    ensures scanning { (c : ColumnScan (graph_of s row.now column.now weight.now) (entries state.now.price) (entries state.now.used) (leasts table.now) label.old distance.old order.old first (naturals list.now) (list_start s.rows (starts table.now) first.vertex) (list_stop s.rows (starts table.now) (entries state.now.used) first.vertex)) → Scanning (graph_of s row.now column.now weight.now) c.x (entries state.now.price) c.exit label.new distance.new order.new c.root c.count result (naturals list.now) (list_start s.rows (starts table.now) first.vertex) (list_stop s.rows (starts table.now) (entries state.now.used) first.vertex) }
    ensures vertex_value { (result.vertex ≡ first.vertex) × (result.distance ≡ first.distance) }
{
    let u = first.vertex as usize;
    let d = first.distance;
    let places = list_of(s.rows, table, &state.used, u);
    let mut f = first;
    for k in places.start..places.stop {
        let e = integers::natural_at(list, k as usize);
        let at = e as usize;
        let w = method::ends_at(s, row, column, at).first;
        let h = d + method::value_at(weight, at) - (state.price[w] + state.price[u]);
        f = reach::look_back(state, table, label, distance, order, w, h, e, f);
    }
    f
}
