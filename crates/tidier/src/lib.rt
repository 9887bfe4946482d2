// Writes a graph in tidy order as a text (the tidy sheet), after the tests on all that is lent.
#![tactic(auto)]

ghost use Rattle.std.specs.Prelude.{◌≡◌, length};
ghost use Rattle.graph.specs.Limits.{longest_text};
ghost use Rattle.graph.specs.Refusal.{told, reported, output};
ghost use Rattle.graph.specs.Graph.{graph_of};
ghost use Rattle.graph.specs.Passed.{Passed};
ghost use Rattle.layout.specs.TidyText.{tidy_text, tidy_graph};
ghost use Rattle.writer.specs.Written.{Written};

use graph::{LONGEST_TEXT, MOST_EDGES, Refusal, Shape};

// Writes the tidy text of a graph that has passed the tests to `out`, 0 after its end. The result is its length.
fn put_tidy(s: Shape, row: &[u32], column: &[u32], weight: &[i32], out: &mut [u8]) -> usize
    requires passed { Passed (graph_of s row.now column.now weight.now) }
    requires out_len { length out.old ≡ longest_text }
    ensures { Written longest_text (tidy_text (graph_of s row.now column.now weight.now)) out.new result }
{
    let m = s.edges as usize;
    let mut order = [0u32; MOST_EDGES];
    sorter::sort_edges(s, row, column, weight, &mut order[..m]);
    graph_writer::put_graph(out, s, row, column, weight, &order[..m])
}

// Writes the tidy text of a graph to `out`, 0 after its end, and answers its length. After a refusal all of `out` is 0.
pub fn tidy_graph(
    s: Shape,
    row: &[u32],
    column: &[u32],
    weight: &[i32],
    out: &mut [u8],
) -> Result<usize, Refusal>
    ensures answer { result ≡ reported length (tidy_graph (graph_of s row.now column.now weight.now) (length out.old)) }
    ensures text { out.new ≡ output (length out.old) 0 (λ t. t) (tidy_graph (graph_of s row.now column.now weight.now) (length out.old)) }
{
    let long = out.len() == LONGEST_TEXT;
    writer::or_clear(lent::check_lent(s, row, column, weight, long), out)?;
    Ok(put_tidy(s, row, column, weight, out))
}
