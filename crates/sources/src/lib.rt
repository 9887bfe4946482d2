// The lines of an assignment text after its problem line, up to the first arc: the source nodes.
#![tactic(auto)]

ghost use Rattle.sources.specs.Sources.{SourceAs};

use entries::Entry;
use graph::Fault;

// What a line after the problem line is: the next source node, or the first arc.
#[derive(Clone, Copy, Debug, PartialEq, Eq)]
pub enum SourceLine {
    Node(u32),
    Arc,
}

// A line after the problem line.
pub fn next_source(line: &[u8], arcs: u32, rows: u32) -> Result<SourceLine, Fault>
    ensures { SourceAs line.now arcs rows result }
{
    match entries::entry_on(line) {
        Some(Entry::Source(node)) if nodes::is_next(node, rows) => Ok(SourceLine::Node(node)),
        Some(Entry::Source(_)) => Err(Fault::Sources),
        Some(Entry::Arc { .. }) if arcs > 0 => Ok(SourceLine::Arc),
        _ => Err(Fault::AssignmentLine),
    }
}
