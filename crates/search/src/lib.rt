// One search of the solver: from a row vertex that is not served, vertices are settled by their distance until a path ends, and the path is flipped.
#![tactic(auto)]

ghost use Rattle.std.specs.Prelude.{◌+◌, ◌≤◌, ◌<◌, ◌≡◌, length};
ghost use Rattle.graph.specs.Limits.{most_vertices};
ghost use Rattle.graph.specs.Graph.{graph_of};
ghost use Rattle.method.specs.Method.{level, top_price, Rooted};
ghost use Rattle.method.specs.Tree.{entries, naturals};
ghost use Rattle.method.specs.Front.{far, root_exit};
ghost use Rattle.method.specs.Lists.{leasts, mosts, Given, Between};
ghost use Rattle.search.specs.Search.{Known, Finds, Countable, PathCounted, Searched};

use graph::{MOST_EDGES, MOST_VERTICES, Shape};
use integers::pick;
use method::{FAR, KeptEdge, LEVEL, MOST_LISTED, State, Table, Tree};
use reach::Front;

// How far the root is from a way out: it may keep its degree once it has its least.
fn root_exit(price: u32, used: u32, least: u32) -> u32
    requires { (least ≤ used → level ≤ price) × (price ≤ top_price) }
    ensures { (result ≡ root_exit price used least) × (result ≤ far) }
{
    if used < least { FAR } else { price - LEVEL }
}

// The front at the root, which alone is reached.
fn at_root(state: &State, table: &Table, root: u32) -> Front
    requires root_in { root < most_vertices }
    requires price { (leasts table.now root ≤ entries state.now.used root → level ≤ entries state.now.price root) × (entries state.now.price root ≤ top_price) }
    ensures front { result ≡ record { goal = root_exit (entries state.now.price root) (entries state.now.used root) (leasts table.now root); end = root; reached = 1; vertex = root; distance = 0 } }
    ensures goal { result.goal ≤ far }
{
    let at = root as usize;
    let goal = root_exit(state.price[at], state.used[at], table.least[at]);
    Front {
        goal,
        end: root,
        reached: 1,
        vertex: root,
        distance: 0,
    }
}

// Settles vertices, nearest first, and looks at the edges of each, until no open vertex is nearer than the end of a path; then moves the prices. The list of
// the vertices reached has the root first. None is answered where no path ends.
fn find_end(
    s: Shape,
    row: &[u32],
    column: &[u32],
    weight: &[i32],
    arcs: &[KeptEdge; MOST_EDGES],
    table: &Table,
    chosen: &[u8],
    list: &[i32],
    state: &mut State,
    order: &mut [u32; MOST_LISTED],
) -> Option<Tree>
    requires given { Given (graph_of s row.now column.now weight.now) arcs.now table.now (length list.now) }
    requires known { Known (graph_of s row.now column.now weight.now) (leasts table.now) (mosts table.now) chosen.now (entries state.old.price) (entries state.old.used) (naturals list.now) }
    requires rooted { Rooted (graph_of s row.now column.now weight.now) (leasts table.now) (mosts table.now) chosen.now (entries state.old.price) (entries order.old 0) }
    ensures finds { Finds (graph_of s row.now column.now weight.now) (leasts table.now) (mosts table.now) chosen.now (entries state.old.price) (entries state.new.price) (entries order.old 0) result }
    ensures used { state.new.used ≡ state.old.used }
{
    let root = order[0];
    let mut f = at_root(state, table, root);
    let mut distance = [FAR; MOST_VERTICES];
    distance[root as usize] = 0;
    let mut tree = Tree {
        label: [0u32; MOST_VERTICES],
        end: root as usize,
    };
    let mut count = 1u32;
    let end = 'search: loop {
        f = scan::scan_column(
            s,
            row,
            column,
            weight,
            list,
            state,
            table,
            &mut tree.label,
            &mut distance,
            order,
            f,
        );
        let u = f.vertex as usize;
        let base = f.distance + state.price[u];
        let last = pick(u < s.rows as usize, table.stop[u], 0);
        for k in table.start[u]..last {
            let kept = arcs[k as usize];
            let mark = chosen[kept.edge as usize];
            f = reach::look(
                state,
                table,
                &mut tree.label,
                &mut distance,
                order,
                base,
                kept,
                mark,
                f,
            );
            if f.goal == f.distance {
                break 'search f.end;
            }
        }
        let at = dual_step::nearest(&distance, order, count, f.reached, f.goal);
        if at == f.reached {
            break 'search f.end;
        }
        let v = dual_step::settle(order, at, count);
        count += 1;
        f = scan::settled(f, v, distance[v as usize]);
    };
    let none = f.goal == FAR;
    if none {
        return None;
    }
    dual_step::move_prices(&mut state.price, s.rows, order, &distance, count, f.goal);
    tree.end = end as usize;
    Some(tree)
}

// Counts the path from the root to its end: the root has one edge more, and so has a column vertex at the end; a row vertex there has one less.
fn count_path(used: &mut [u32; MOST_VERTICES], rows: u32, root: usize, end: usize)
    requires { Countable rows root end (entries used.old) }
    ensures { PathCounted rows root end (entries used.old) (entries used.new) }
{
    used[root] += 1;
    if end < rows as usize {
        used[end] -= 1;
    } else {
        used[end] += 1;
    }
}

// One search from the root, a row vertex that is not served, which stands first in the list of the vertices reached: the root then has one edge more, or its
// least and the price 0. It answers whether a path ends; where none does, no subgraph meets both bounds.
pub fn search(
    s: Shape,
    row: &[u32],
    column: &[u32],
    weight: &[i32],
    arcs: &[KeptEdge; MOST_EDGES],
    table: &Table,
    chosen: &mut [u8],
    list: &mut [i32],
    place: &mut [u32; MOST_EDGES],
    state: &mut State,
    order: &mut [u32; MOST_LISTED],
) -> bool
    requires given { Given (graph_of s row.now column.now weight.now) arcs.now table.now (length list.old) }
    requires between { Between (graph_of s row.now column.now weight.now) (leasts table.now) (mosts table.now) chosen.old (entries state.old.price) (entries state.old.used) (naturals list.old) (entries place.old) }
    requires rooted { Rooted (graph_of s row.now column.now weight.now) (leasts table.now) (mosts table.now) chosen.old (entries state.old.price) (entries order.old 0) }
    ensures searched { Searched (graph_of s row.now column.now weight.now) (leasts table.now) (mosts table.now) (entries order.old 0) chosen.old (entries state.old.price) chosen.new (entries state.new.price) (entries state.new.used) (naturals list.new) (entries place.new) result }
{
    let root = order[0] as usize;
    let Some(tree) = find_end(
        s, row, column, weight, arcs, table, chosen, list, state, order,
    ) else {
        return false;
    };
    let places = scan::list_of(s.rows, table, &state.used, tree.end);
    augment::augment(
        chosen,
        list,
        place,
        s,
        row,
        column,
        &tree.label,
        root,
        tree.end,
        places.stop,
    );
    count_path(&mut state.used, s.rows, root, tree.end);
    true
}
