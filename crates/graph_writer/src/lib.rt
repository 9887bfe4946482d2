// Writes a graph (sheet) as a Matrix Market text, its edges in a given order or in the graph's own.
#![tactic(auto)]

ghost use Rattle.std.specs.Prelude.{◌≡◌, [], ◌∷◌, ◌+◌, ◌≤◌, ◌<◌, pos, length, get_or};
ghost use Rattle.graph.specs.Limits.{most_edges, longest_text};
ghost use Rattle.graph.specs.Graph.{graph_of};
ghost use Rattle.graph.specs.Passed.{Passed};
ghost use Rattle.layout.specs.Text.{decimal, signed, spaced, unlines};
ghost use Rattle.layout.specs.GraphText.{graph_text};
ghost use Rattle.layout.specs.TidyText.{graph_in_order};
ghost use Rattle.digits.specs.Appends.{Appends};
ghost use Rattle.writer.specs.Written.{Written};
ghost use Rattle.graph_writer.specs.Order.{Ordered, OwnOrder};

use digits::Writer;
use graph::{MOST_EDGES, Shape};
use layout::Field;

// Writes the line of edge e: its row, its column and its weight.
fn put_weighted_edge(w: &mut Writer, row: &[u32], column: &[u32], weight: &[i32], e: usize)
    requires room { w.old.at + 64 ≤ length w.old.out.now }
    requires e_in_bounds { (e < length row.now) × (e < length column.now) × (e < length weight.now) }
    ensures { Appends w.old (unlines (spaced (decimal (get_or row.now e 0) ∷ decimal (get_or column.now e 0)
        ∷ signed (get_or weight.now e (pos 0)) ∷ []) ∷ [])) w.new }
{
    w.field(u64::from(row[e]), b' ');
    w.field(u64::from(column[e]), b' ');
    w.signed(i64::from(weight[e]));
    w.byte(b'\n');
}

// Writes the text of a graph, its edges in the order that is given, to `out`, 0 after its end. The result is its length.
pub fn put_graph(
    out: &mut [u8],
    s: Shape,
    row: &[u32],
    column: &[u32],
    weight: &[i32],
    order: &[u32],
) -> usize
    requires out_len { length out.old ≡ longest_text }
    requires ordered { Ordered (graph_of s row.now column.now weight.now) order.now }
    ensures { Written longest_text (graph_text (graph_in_order (graph_of s row.now column.now weight.now) order.now)) out.new result }
{
    let mut w = writer::put_head(out, Field::Integer, s, s.edges);
    for e in order {
        put_weighted_edge(&mut w, row, column, weight, *e as usize);
    }
    w.at
}

// Sets each number of `order` to its own place.
fn fill_own(order: &mut [u32])
    requires { length order.old ≤ most_edges }
    ensures { OwnOrder order.new }
{
    for e in 0..order.len() {
        order[e] = e as u32;
    }
}

// Writes the text of a graph that has passed the tests, its edges as they stand, to `out`, 0 after its end. The result is its length.
pub fn put_own(out: &mut [u8], s: Shape, row: &[u32], column: &[u32], weight: &[i32]) -> usize
    requires out_len { length out.old ≡ longest_text }
    requires passed { Passed (graph_of s row.now column.now weight.now) }
    ensures { Written longest_text (graph_text (graph_of s row.now column.now weight.now)) out.new result }
{
    let m = s.edges as usize;
    let mut order = [0u32; MOST_EDGES];
    fill_own(&mut order);
    put_graph(out, s, row, column, weight, &order[..m])
}
