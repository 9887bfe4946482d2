// What `from_dimacs` writes: reads an assignment text, and writes its graph (sheet) in the arcs' order, or the refusal that ends the run.
ghost use Rattle.std.specs.Prelude.{◌≤◌, length};
ghost use Rattle.report.specs.Report.{Composed};
ghost use Rattle.report.specs.Programs.{from_dimacs_output, whole_text_room};

use graph::{LONGEST_TEXT, MOST_EDGES, MOST_VERTICES};
use report::Source;

// Writes what `from_dimacs` writes of an assignment text to `out`, 0 after its end. The result is its length; or 0, and `out` is cleared, where `out` has not
// just 32,768 bytes.
pub fn from_dimacs_output(crosses: &[u8], out: &mut [u8]) -> usize
    ensures inside { result ≤ length out.new }
    ensures composed { Composed whole_text_room (from_dimacs_output crosses.now) out.old out.new result }
{
    let other = out.len() != LONGEST_TEXT;
    if other {
        filling::fill(out, 0);
        return 0;
    }
    let mut row = [0u32; MOST_EDGES];
    let mut column = [0u32; MOST_EDGES];
    let mut weight = [0i32; MOST_EDGES];
    let mut bound = [0i32; MOST_VERTICES];
    match assignment_reader::read_assignment(
        crosses,
        &mut row,
        &mut column,
        &mut weight,
        &mut bound,
    ) {
        Err(refusal) => report::put_refused(out, Source::Assignment, refusal),
        Ok(s) => {
            let m = s.edges as usize;
            graph_writer::put_own(out, s, &row[..m], &column[..m], &weight[..m])
        }
    }
}
