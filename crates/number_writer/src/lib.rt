// Writes bounds (limits) or prices as a Matrix Market text.
#![tactic(auto)]

ghost use Rattle.std.specs.Prelude.{◌≡◌, [], ◌∷◌, ◌++◌, map, ◌+◌, ◌*◌, ◌≤◌, length};
ghost use Rattle.graph.specs.Limits.{most_vertices, most_edges, longest_text};
ghost use Rattle.layout.specs.Text.{bytes, decimal, signed, spaced, unlines};
ghost use Rattle.layout.specs.NumberText.{number_text};
ghost use Rattle.digits.specs.Appends.{Appends};
ghost use Rattle.writer.specs.Written.{Written};

use digits::Writer;

// Writes the header line and the size line.
fn put_array_head(w: &mut Writer, count: u64)
    requires { w.old.at + 86 ≤ length w.old.out.now }
    ensures written { Appends w.old (unlines (bytes "%%MatrixMarket matrix array integer general"
        ∷ spaced (decimal count ∷ decimal 1 ∷ []) ∷ [])) w.new }
    ensures within { w.new.at ≤ w.old.at + 86 }
{
    w.bytes(b"%%MatrixMarket matrix array integer general\n");
    w.field(count, b' ');
    w.field(1, b'\n');
}

// Writes the numbers, one a line.
fn put_values(w: &mut Writer, values: &[i32])
    requires { w.old.at + length values.now * 22 ≤ length w.old.out.now }
    ensures written { Appends w.old (unlines (map signed values.now)) w.new }
    ensures within { w.new.at ≤ w.old.at + length values.now * 22 }
{
    for value in values {
        w.signed(i64::from(*value));
        w.byte(b'\n');
    }
}

// Writes the text of the numbers of both lists to `out`, 0 after its end. The result is its length.
pub fn put_numbers(out: &mut [u8], first: &[i32], rest: &[i32]) -> usize
    requires out_len { length out.old ≡ longest_text }
    requires first_len_bound { (length first.now ≤ most_vertices) × (length rest.now ≤ most_edges) }
    ensures { Written longest_text (number_text (first.now ++ rest.now)) out.new result }
{
    let mut w = Writer::cleared(out);
    put_array_head(&mut w, (first.len() + rest.len()) as u64);
    put_values(&mut w, first);
    put_values(&mut w, rest);
    w.at
}
