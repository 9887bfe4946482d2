// Serves the row vertices: searches from each until it is served.
#![tactic(auto)]

ghost use Rattle.std.specs.Prelude.{◌<◌, length};
ghost use Rattle.graph.specs.Graph.{graph_of};
ghost use Rattle.method.specs.Tree.{entries, naturals};
ghost use Rattle.method.specs.Lists.{leasts, mosts, Given, Between};
ghost use Rattle.roots.specs.Roots.{Serves};
ghost use Rattle.serving.specs.Served.{RowServing, Serving};

use graph::{MOST_EDGES, Shape};
use method::{KeptEdge, MOST_LISTED, State, Table};
use roots::Roots;

// Serves a row vertex: searches from it until it has its least, and its most or the price 0. It answers whether each search found a path.
fn serve_row(
    s: Shape,
    row: &[u32],
    column: &[u32],
    weight: &[i32],
    arcs: &[KeptEdge; MOST_EDGES],
    table: &Table,
    root: u32,
    chosen: &mut [u8],
    list: &mut [i32],
    place: &mut [u32; MOST_EDGES],
    state: &mut State,
    order: &mut [u32; MOST_LISTED],
) -> bool
    requires given { Given (graph_of s row.now column.now weight.now) arcs.now table.now (length list.old) }
    requires root_in { root < s.rows }
    requires between { Between (graph_of s row.now column.now weight.now) (leasts table.now) (mosts table.now) chosen.old (entries state.old.price) (entries state.old.used) (naturals list.old) (entries place.old) }
    ensures { RowServing (graph_of s row.now column.now weight.now) (leasts table.now) (mosts table.now) root chosen.old chosen.new (entries state.old.price) (entries state.new.price) (entries state.new.used) (naturals list.new) (entries place.new) result }
{
    while roots::is_unserved(state, table, root as usize) {
        order[0] = root;
        let found = search::search(
            s, row, column, weight, arcs, table, chosen, list, place, state, order,
        );
        if !found {
            return false;
        }
    }
    true
}

// Serves the row vertices in their order. It answers whether each search found a path.
pub fn serve_rows(
    s: Shape,
    row: &[u32],
    column: &[u32],
    weight: &[i32],
    arcs: &[KeptEdge; MOST_EDGES],
    table: &Table,
    serving: Roots,
    chosen: &mut [u8],
    list: &mut [i32],
    place: &mut [u32; MOST_EDGES],
    state: &mut State,
) -> bool
    requires given { Given (graph_of s row.now column.now weight.now) arcs.now table.now (length list.old) }
    requires serves { Serves s.rows (mosts table.now) (entries serving.list) serving.count }
    requires between { Between (graph_of s row.now column.now weight.now) (leasts table.now) (mosts table.now) chosen.old (entries state.old.price) (entries state.old.used) (naturals list.old) (entries place.old) }
    ensures { Serving (graph_of s row.now column.now weight.now) (leasts table.now) (mosts table.now) chosen.old chosen.new (entries state.new.price) (entries state.new.used) (naturals list.new) (entries place.new) result }
{
    let mut order = [0u32; MOST_LISTED];
    for i in 0..serving.count {
        let root = serving.list[i as usize];
        let served = serve_row(
            s, row, column, weight, arcs, table, root, chosen, list, place, state, &mut order,
        );
        if !served {
            return false;
        }
    }
    true
}
