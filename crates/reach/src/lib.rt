// Looking at one edge from a settled vertex: its other end is reached, if that is nearer. Each number is chosen from two and stored either way.
#![tactic(auto)]

ghost use Rattle.std.specs.Prelude.{◌+◌, ◌*◌, ◌-◌, ◌≤◌, ◌<◌, ◌^◌, ◌≡◌};
ghost use Rattle.graph.specs.Limits.{most_vertices};
ghost use Rattle.method.specs.Method.{level, top_price, top_value};
ghost use Rattle.method.specs.Tree.{entries};
ghost use Rattle.method.specs.Front.{far, shut, near_exit, far_exit};
ghost use Rattle.method.specs.Lists.{leasts, mosts};
ghost use Rattle.reach.specs.Reach.{ReachedBy};

use graph::MOST_VERTICES;
use integers::{both, pick};
use method::{FAR, KeptEdge, MOST_LISTED, SHUT, State, Table};

// The least distance of an end of a path, the goal; that end; how many vertices are reached; and the vertex settled last with its distance.
#[derive(Clone, Copy)]
pub struct Front {
    pub goal: u32,
    pub end: u32,
    pub reached: u32,
    pub vertex: u32,
    pub distance: u32,
}

// Reaches vertex w by edge e at distance h, if that is nearer than w was and than the goal; the vertex then is the end if with its exit that is nearer still.
fn reach(
    label: &mut [u32; MOST_VERTICES],
    distance: &mut [u32; MOST_VERTICES],
    order: &mut [u32; MOST_LISTED],
    exit: u32,
    w: u32,
    h: u32,
    e: u32,
    f: Front,
) -> Front
    requires { (w < most_vertices) × (f.reached ≤ most_vertices) × (h + exit < 2 ^ 32) }
    ensures { ReachedBy exit w h e f result label.old distance.old order.old label.new distance.new order.new }
{
    let v = w as usize;
    let old = distance[v];
    let nearer = both(h < old, h < f.goal);
    let goal = h + exit;
    let ends = both(h < old, goal < f.goal);
    let more = pick(both(nearer, old == FAR), 1, 0);
    distance[v] = pick(nearer, h, old);
    label[v] = pick(nearer, e, label[v]);
    order[f.reached as usize] = w;
    Front {
        goal: pick(ends, goal, f.goal),
        end: pick(ends, w, f.end),
        reached: f.reached + more,
        ..f
    }
}

// Looks at a kept edge from its row vertex to its column vertex, from where the row vertex's price and its distance come to this base. A chosen edge leads
// nowhere.
pub fn look(
    state: &State,
    table: &Table,
    label: &mut [u32; MOST_VERTICES],
    distance: &mut [u32; MOST_VERTICES],
    order: &mut [u32; MOST_LISTED],
    base: u32,
    kept: KeptEdge,
    mark: u8,
    f: Front,
) -> Front
    requires head_in { (kept.head < most_vertices) × (f.reached ≤ most_vertices) }
    requires base_bound { (base ≤ far + top_price) × (entries state.now.price kept.head ≤ top_price) × (mark ≤ 1) × (kept.value ≤ top_value) × (mark ≡ 0 → kept.value ≤ base + entries state.now.price kept.head) × (entries state.now.used kept.head < mosts table.now kept.head → entries state.now.price kept.head ≤ level) }
    ensures { ReachedBy (far_exit (entries state.now.price kept.head) (entries state.now.used kept.head) (mosts table.now kept.head)) kept.head (base + entries state.now.price kept.head + mark * shut - kept.value) kept.edge f result label.old distance.old order.old label.new distance.new order.new }
{
    let v = kept.head as usize;
    let h = base + state.price[v] + mark as u32 * SHUT - kept.value;
    let exit = exits::far_exit(state.price[v], state.used[v], table.most[v]);
    reach(label, distance, order, exit, kept.head, h, kept.edge, f)
}

// Looks at chosen edge e from a column vertex to row vertex w, which it leads to at distance h.
pub fn look_back(
    state: &State,
    table: &Table,
    label: &mut [u32; MOST_VERTICES],
    distance: &mut [u32; MOST_VERTICES],
    order: &mut [u32; MOST_LISTED],
    w: usize,
    h: u32,
    e: u32,
    f: Front,
) -> Front
    requires w_lt_most_vertices { (w < most_vertices) × (f.reached ≤ most_vertices) × (h ≤ far + top_value) }
    requires level_bound { (leasts table.now w < entries state.now.used w → level ≤ entries state.now.price w) × (entries state.now.price w ≤ top_price) }
    ensures { ReachedBy (near_exit (entries state.now.price w) (entries state.now.used w) (leasts table.now w)) w h e f result label.old distance.old order.old label.new distance.new order.new }
{
    let exit = exits::near_exit(state.price[w], state.used[w], table.least[w]);
    reach(label, distance, order, exit, w as u32, h, e, f)
}
