// Writes a subgraph (plan) as a text, after the tests on all that is lent.
#![tactic(auto)]

ghost use Rattle.std.specs.Prelude.{◌≡◌, List, ℤ, length, Ok};
ghost use Rattle.graph.specs.Limits.{subgraph_bytes};
ghost use Rattle.graph.specs.Refusal.{told, passing, reported, output};
ghost use Rattle.graph.specs.Graph.{graph_of};
ghost use Rattle.layout.specs.SubgraphText.{subgraph_text, writer_tests, write_subgraph};

use graph::{Fault, Refusal, SUBGRAPH_BYTES, Shape};

// The tests, in their order: lengths, sizes, ends, weights, equal ends, marks. `out` is the length of the output.
fn check_marks(
    s: Shape,
    row: &[u32],
    column: &[u32],
    weight: &[i32],
    chosen: &[u8],
    out: usize,
) -> Result<(), Refusal>
    ensures { result ≡ passing (writer_tests (graph_of s row.now column.now weight.now) chosen.now out) (Ok tt) }
{
    let others = integers::both(chosen.len() == s.edges as usize, out == SUBGRAPH_BYTES);
    lent::check_lent(s, row, column, weight, others)?;
    if let Some(e) = lowest::lowest_mark(chosen) {
        return checks::refused_item(Fault::Mark, e);
    }
    Ok(())
}

// Writes the text of the chosen edges to `out`, 0 after its end, and answers its length. After a refusal all of `out` is 0.
pub fn write_subgraph(
    s: Shape,
    row: &[u32],
    column: &[u32],
    weight: &[i32],
    chosen: &[u8],
    out: &mut [u8],
) -> Result<usize, Refusal>
    ensures answer { result ≡ reported length (write_subgraph (graph_of s row.now column.now weight.now) chosen.now (length out.old)) }
    ensures text { out.new ≡ output (length out.old) 0 (λ t. t) (write_subgraph (graph_of s row.now column.now weight.now) chosen.now (length out.old)) }
{
    writer::or_clear(check_marks(s, row, column, weight, chosen, out.len()), out)?;
    Ok(writer::put_subgraph(out, s, row, column, chosen))
}
