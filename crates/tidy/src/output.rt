// What `tidy` writes: reads a graph, and writes its tidy text, or the refusal that ends the run.
ghost use Rattle.std.specs.Prelude.{◌≡◌, ◌≤◌, length};
ghost use Rattle.graph.specs.Limits.{longest_text};
ghost use Rattle.graph.specs.Graph.{graph_of};
ghost use Rattle.report.specs.Report.{Composed};
ghost use Rattle.report.specs.Programs.{written, tidy_run, tidy_output, whole_text_room};

use graph::{LONGEST_TEXT, MOST_EDGES, Shape};
use report::Source;

// Writes the tidy text of a graph that has been read, or the call's refusal, to `out`, 0 after its end. The result is its length.
fn tidy_read(s: Shape, row: &[u32], column: &[u32], weight: &[i32], out: &mut [u8]) -> usize
    requires { length out.old ≡ longest_text }
    ensures { Composed whole_text_room (written (λ text. text) (tidy_run (graph_of s row.now column.now weight.now))) out.old out.new result }
{
    match tidier::tidy_graph(s, row, column, weight, out) {
        Ok(length) => length,
        Err(refusal) => report::put_refused(out, Source::Input, refusal),
    }
}

// Writes what `tidy` writes of a sheet's text to `out`, 0 after its end. The result is its length; or 0, and `out` is cleared, where `out` has not just
// 32,768 bytes.
pub fn tidy_output(sheet: &[u8], out: &mut [u8]) -> usize
    ensures inside { result ≤ length out.new }
    ensures composed { Composed whole_text_room (tidy_output sheet.now) out.old out.new result }
{
    if out.len() != LONGEST_TEXT {
        filling::fill(out, 0);
        return 0;
    }
    let mut row = [0u32; MOST_EDGES];
    let mut column = [0u32; MOST_EDGES];
    let mut weight = [0i32; MOST_EDGES];
    match graph_reader::read_graph(sheet, &mut row, &mut column, &mut weight) {
        Err(refusal) => report::put_refused(out, Source::Sheet, refusal),
        Ok(s) => {
            let m = s.edges as usize;
            tidy_read(s, &row[..m], &column[..m], &weight[..m], out)
        }
    }
}
