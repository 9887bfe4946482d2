// The dual step: the nearest open vertex is settled; when the search is left, the prices move, once for all settled vertices.
#![tactic(auto)]

ghost use Rattle.std.specs.Prelude.{◌+◌, ◌≤◌, ◌<◌, ◌≡◌, length};
ghost use Rattle.graph.specs.Limits.{most_vertices};
ghost use Rattle.method.specs.Method.{top_price};
ghost use Rattle.method.specs.Tree.{entries};
ghost use Rattle.method.specs.Front.{far, Shift, Shifted};
ghost use Rattle.dual_step.specs.Step.{Searchable, NearestAt, Settles, Movable};

use graph::MOST_VERTICES;
use integers::pick;
use method::MOST_LISTED;

// The place of the nearest open vertex, if one is nearer than the goal; else the place after the last one reached.
pub fn nearest(
    distance: &[u32; MOST_VERTICES],
    order: &[u32; MOST_LISTED],
    count: u32,
    reached: u32,
    goal: u32,
) -> u32
    requires { Searchable (entries order.now) count reached }
    ensures { NearestAt (entries distance.now) (entries order.now) count reached goal result }
{
    let mut best = goal;
    let mut place = reached;
    for i in count..reached {
        let v = order[i as usize] as usize;
        let d = distance[v];
        let nearer = d < best;
        place = pick(nearer, i, place);
        best = pick(nearer, d, best);
    }
    place
}

// Settles the vertex at this place of the list: it becomes the last of those settled.
pub fn settle(order: &mut [u32; MOST_LISTED], place: u32, count: u32) -> u32
    requires { (place < most_vertices) × (count < most_vertices) }
    ensures { Settles order.old order.new place count result }
{
    let v = order[place as usize];
    order.swap(place as usize, count as usize);
    v
}

// The price of vertex v once it has moved: down for a row vertex, and up for a column vertex.
fn moved(rows: u32, by: u32, v: u32, price: u32) -> u32
    requires { (v < rows → by ≤ price) × (price ≤ top_price) × (by ≤ far) }
    ensures { Shift rows v by price result }
{
    if v < rows { price - by } else { price + by }
}

// Moves the prices of the settled vertices, each by what its distance is below the goal.
pub fn move_prices(
    price: &mut [u32; MOST_VERTICES],
    rows: u32,
    order: &[u32; MOST_LISTED],
    distance: &[u32; MOST_VERTICES],
    count: u32,
    goal: u32,
)
    requires movable { Movable rows (entries order.now) (entries distance.now) (entries price.old) count goal }
    ensures { Shifted rows (entries order.now) (entries distance.now) (entries price.old) (entries price.new) count goal }
{
    for i in 0..count {
        let v = order[i as usize];
        let at = v as usize;
        let by = goal - distance[at];
        price[at] = moved(rows, by, v, price[at]);
    }
}
