// What `to_dimacs` writes: reads a problem, and writes its assignment text, or the refusal that ends the run.
ghost use Rattle.std.specs.Prelude.{◌≡◌, ◌≤◌, length};
ghost use Rattle.graph.specs.Limits.{longest_text};
ghost use Rattle.graph.specs.Graph.{graph_of};
ghost use Rattle.report.specs.Report.{Composed};
ghost use Rattle.report.specs.Programs.{written, to_dimacs_run, to_dimacs_output, whole_text_room};

use graph::{LONGEST_TEXT, MOST_EDGES, MOST_VERTICES, Shape};
use problem_reader::SourceRefusal;
use report::Source;

// Writes the assignment text of a problem that has been read, or the call's refusal, to `out`, 0 after its end. The result is its length.
fn write_problem(
    s: Shape,
    row: &[u32],
    column: &[u32],
    weight: &[i32],
    bound: &[i32],
    out: &mut [u8],
) -> usize
    requires { length out.old ≡ longest_text }
    ensures { Composed whole_text_room (written (λ text. text) (to_dimacs_run (record { graph = graph_of s row.now column.now weight.now; bound = bound.now }))) out.old out.new result }
{
    match assignment_writer::write_assignment(s, row, column, weight, bound, out) {
        Ok(length) => length,
        Err(refusal) => report::put_refused(out, Source::Input, refusal),
    }
}

// Writes what `to_dimacs` writes of the two texts to `out`, 0 after its end. The result is its length; or 0, and `out` is cleared, where `out` has not
// just 32,768 bytes.
pub fn to_dimacs_output(sheet: &[u8], limits: &[u8], out: &mut [u8]) -> usize
    ensures inside { result ≤ length out.new }
    ensures composed { Composed whole_text_room (to_dimacs_output sheet.now limits.now) out.old out.new result }
{
    if out.len() != LONGEST_TEXT {
        filling::fill(out, 0);
        return 0;
    }
    let mut row = [0u32; MOST_EDGES];
    let mut column = [0u32; MOST_EDGES];
    let mut weight = [0i32; MOST_EDGES];
    let mut bound = [0i32; MOST_VERTICES];
    match problem_reader::read_problem(
        sheet,
        limits,
        &mut row,
        &mut column,
        &mut weight,
        &mut bound,
    ) {
        Err(SourceRefusal { source, refusal }) => report::put_refused(out, source, refusal),
        Ok(s) => {
            let n = s.vertex_count() as usize;
            let m = s.edges as usize;
            write_problem(s, &row[..m], &column[..m], &weight[..m], &bound[..n], out)
        }
    }
}
