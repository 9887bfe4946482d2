// Reads a problem: a graph (sheet) and the bounds (limits) of its vertices.
#![tactic(auto)]

ghost use Rattle.std.specs.Prelude.{◌≡◌, ◌≤◌, pos, length};
ghost use Rattle.graph.specs.Limits.{most_vertices};
ghost use Rattle.graph.specs.Refusal.{told, reported, output};
ghost use Rattle.report.specs.Programs.{run_reported, read_bounds, read_problem};
ghost use Rattle.problem_reader.specs.Problem.{problem_shape, problem_says, ProblemLeft};

use graph::{Fault, MOST_VERTICES, Refusal, Shape};
use layout::Numbers;
use report::Source;

// The refusal that ends the reading, and the text that it comes from.
#[derive(Clone, Copy)]
pub struct SourceRefusal {
    pub source: Source,
    pub refusal: Refusal,
}

// Reads the bounds of n vertices. `bound` holds them, and then 0; after a refusal it holds only 0.
fn read_bounds(limits: &[u8], n: u64, bound: &mut [i32]) -> Result<(), Refusal>
    requires { n ≤ most_vertices }
    ensures says { result ≡ reported (λ zs. tt) (read_bounds (length bound.old) n limits.now) }
    ensures bounds { bound.new ≡ output (length bound.old) (pos 0) (λ zs. zs) (read_bounds (length bound.old) n limits.now) }
{
    filling::fill(bound, 0);
    if bound.len() != MOST_VERTICES {
        return Err(Refusal {
            fault: Fault::LentLength,
            place: 0,
        });
    }
    let count = n as usize;
    number_reader::read_numbers(limits, Numbers::Bounds, n as u32, &mut bound[..count])
}

// Reads the graph of `sheet` and the bounds of `limits`. The four arrays hold them, and then 0; after a refusal they hold only 0.
pub fn read_problem(
    sheet: &[u8],
    limits: &[u8],
    row: &mut [u32],
    column: &mut [u32],
    weight: &mut [i32],
    bound: &mut [i32],
) -> Result<Shape, SourceRefusal>
    ensures says { problem_says result ≡ run_reported problem_shape (read_problem (length row.old) (length column.old) (length weight.old) (length bound.old) sheet.now limits.now) }
    ensures arrays { ProblemLeft (read_problem (length row.old) (length column.old) (length weight.old) (length bound.old) sheet.now limits.now) (length row.old) (length column.old) (length weight.old) (length bound.old) row.new column.new weight.new bound.new }
{
    match graph_reader::read_graph(sheet, row, column, weight) {
        Err(refusal) => {
            filling::fill(bound, 0);
            Err(SourceRefusal {
                source: Source::Sheet,
                refusal,
            })
        }
        Ok(s) => match read_bounds(limits, s.vertex_count(), bound) {
            Err(refusal) => {
                filling::fill(row, 0);
                filling::fill(column, 0);
                filling::fill(weight, 0);
                Err(SourceRefusal {
                    source: Source::Limits,
                    refusal,
                })
            }
            Ok(()) => Ok(s),
        },
    }
}
