// What programs write: the line of a refusal, and the line of a measuring.
#![tactic(auto)]

ghost use Rattle.std.specs.Prelude.{◌≡◌, ◌++◌, ◌+◌, ◌≤◌, length};
ghost use Rattle.layout.specs.Text.{signed};
ghost use Rattle.digits.specs.Appends.{Appends};
ghost use Rattle.report.specs.Report.{name_of, refused_line, measured_line, line_bytes, line_room, Composed};

use digits::Writer;
use dual::Measures;
use graph::Refusal;

// Room for either line, as specs/Report.antt defines it.
pub const LINE_BYTES: usize = 256;

// Where a refusal comes from: a text that is read, or no reader.
#[derive(Clone, Copy)]
pub enum Source {
    Sheet,
    Limits,
    Plan,
    Prices,
    Assignment,
    Input,
}

impl Source {
    // FILE: the name of the file that is read, or `input`.
    fn name(self) -> &'static [u8]
        ensures { result.now ≡ name_of self }
    {
        match self {
            Source::Sheet => b"sheet.mtx",
            Source::Limits => b"limits.mtx",
            Source::Plan => b"plan.mtx",
            Source::Prices => b"prices.mtx",
            Source::Assignment => b"crosses.asn",
            Source::Input => b"input",
        }
    }
}

// Writes a name, with the blanks at its sides, and z after it.
fn put_named(w: &mut Writer, name: &[u8], z: i64)
    requires { w.old.at + length name.now + 21 ≤ length w.old.out.now }
    ensures written { Appends w.old (name.now ++ signed z) w.new }
    ensures within { w.new.at ≤ w.old.at + length name.now + 21 }
{
    w.bytes(name);
    w.signed(z);
}

// Writes the line of a refusal.
fn put_refusal(w: &mut Writer, source: Source, refusal: Refusal)
    requires { w.old.at + line_bytes ≤ length w.old.out.now }
    ensures { Appends w.old (refused_line source refusal.fault refusal.place) w.new }
{
    w.bytes(b"refused ");
    w.decimal(u64::from(u32::from(refusal.fault)));
    w.bytes(b" at ");
    w.decimal(refusal.place);
    w.bytes(b" in ");
    w.bytes(source.name());
    w.byte(b'\n');
}

// Writes the line of a measuring.
fn put_measured_line(w: &mut Writer, m: Measures)
    requires { w.old.at + line_bytes ≤ length w.old.out.now }
    ensures { Appends w.old (measured_line m) w.new }
{
    put_named(w, b"merit ", m.weight);
    put_named(w, b" total ", m.total);
    put_named(w, b" fish ", m.vertices);
    put_named(w, b" groups ", m.sets);
    put_named(w, b" pairs ", m.edges);
    put_named(w, b" cover ", m.cover);
    put_named(w, b" gap ", m.gap);
    w.byte(b'\n');
}

// Writes the line of a refusal to `out`, 0 after its end. The result is its length; or 0, and `out` is cleared, where `out` is shorter than 256 bytes.
pub fn put_refused(out: &mut [u8], source: Source, refusal: Refusal) -> usize
    ensures { Composed line_room (refused_line source refusal.fault refusal.place) out.old out.new result }
{
    let mut w = Writer::cleared(out);
    if w.out.len() < LINE_BYTES {
        return 0;
    }
    put_refusal(&mut w, source, refusal);
    w.at
}

// Writes the line of a measuring to `out`, 0 after its end. The result is its length; or 0, and `out` is cleared, where `out` is shorter than 256 bytes.
pub fn put_measures(out: &mut [u8], m: Measures) -> usize
    ensures { Composed line_room (measured_line m) out.old out.new result }
{
    let mut w = Writer::cleared(out);
    if w.out.len() < LINE_BYTES {
        return 0;
    }
    put_measured_line(&mut w, m);
    w.at
}
