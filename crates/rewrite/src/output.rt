// What `rewrite` writes: an old text anew, where the old rules take it, or the line that says that they do not.
ghost use Rattle.std.specs.Prelude.{◌+◌, ◌≤◌, length};
ghost use Rattle.graph.specs.Limits.{longest_text};
ghost use Rattle.layout.specs.Rewrite.{rewrite_output};
ghost use Rattle.digits.specs.Appends.{Appends};
ghost use Rattle.report.specs.Report.{Composed};
ghost use Rattle.report.specs.Programs.{text_room};

use digits::Writer;
use graph::LONGEST_TEXT;

// Writes an old text anew, or the line that says that the old rules do not take it.
fn put_anew(w: &mut Writer, text: &[u8])
    requires { w.old.at + longest_text ≤ length w.old.out.now }
    ensures { Appends w.old (rewrite_output text.now) w.new }
{
    if old_text::is_taken(text) {
        anew::put_text(w, text);
    } else {
        w.bytes(b"cannot read\n");
    }
}

// Writes what `rewrite` writes of an old text to `out`, 0 after its end. The result is its length; or 0, and `out` is cleared, where `out` is shorter than
// 32,768 bytes.
pub fn rewrite_output(text: &[u8], out: &mut [u8]) -> usize
    ensures inside { result ≤ length out.new }
    ensures composed { Composed text_room (rewrite_output text.now) out.old out.new result }
{
    let mut w = Writer::cleared(out);
    if w.out.len() < LONGEST_TEXT {
        return 0;
    }
    put_anew(&mut w, text);
    w.at
}
