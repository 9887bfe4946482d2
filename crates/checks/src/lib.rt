// The tests that calls make on the numbers of a graph, on bounds, on a subgraph and on prices.
#![tactic(auto)]

ghost use Rattle.std.specs.Prelude.{ℕ, Bool, suc, ◌+◌, ◌-◌, ◌^◌, ◌<◌, ◌≡◌, not, [], ◌∷◌, eqb, length, get_or, set, Some, Ok, Err};
ghost use Rattle.graph.specs.Refusal.{refuses, once, each, lowest, passing};
ghost use Rattle.graph.specs.Graph.{graph_of};
ghost use Rattle.graph.specs.Tests.{graph_tests};
ghost use Rattle.checks.specs.Checks.{Flagged, flag_place, table_flags, joined_in};

use graph::{Fault, MOST_VERTICES, Refusal, Shape};

// The flags of the table of ends: one for each row and column.
pub const TABLE_FLAGS: usize = MOST_VERTICES * MOST_VERTICES;

// A refusal at a place.
pub fn refused(fault: Fault, place: u64) -> Result<(), Refusal>
    ensures { result ≡ Err (record { fault = fault; place = place }) }
{
    Err(Refusal { fault, place })
}

// The refusal of item k, whose place counts from 1.
pub fn refused_item(fault: Fault, k: usize) -> Result<(), Refusal>
    requires { k < 2 ^ 40 }
    ensures { result ≡ refuses fault (suc k) }
{
    Err(Refusal {
        fault,
        place: k as u64 + 1,
    })
}

// A test that is made once, at place 0, and holds or not.
pub fn check_once(fault: Fault, holds: bool) -> Result<(), Refusal>
    ensures { result ≡ passing (once fault holds ∷ []) (Ok tt) }
{
    if holds {
        Ok(())
    } else {
        Err(Refusal { fault, place: 0 })
    }
}

// A test of items, of which `broken` is the lowest that breaks it.
pub fn check_each(fault: Fault, broken: Option<usize>) -> Result<(), Refusal>
    requires { (k : ℕ) → broken ≡ Some k → k < 2 ^ 40 }
    ensures { (n : ℕ) (keeps : ℕ → Bool) → broken ≡ lowest n keeps → result ≡ passing (each fault n keeps ∷ []) (Ok tt) }
{
    match broken {
        Some(k) => refused_item(fault, k),
        None => Ok(()),
    }
}

// Where the flag of a row and a column stands in a table of ends.
pub fn flag_at(r: u32, c: u32) -> usize
    requires { Flagged r × Flagged c }
    ensures { (result ≡ flag_place r c) × (result < table_flags) }
{
    ((r - 1) * MOST_VERTICES as u32 + (c - 1)) as usize
}

// Notes an edge's ends in the table of ends, and answers whether they were there before.
pub fn note(flags: &mut [u8], r: u32, c: u32) -> bool
    requires flags_len { length flags.old ≡ table_flags }
    requires flagged { Flagged r × Flagged c }
    ensures value { result ≡ eqb (get_or flags.old (flag_place r c) 0) 1 }
    ensures flags_after { flags.new ≡ set flags.old (flag_place r c) 1 }
{
    let at = flag_at(r, c);
    let before = flags[at];
    flags[at] = 1;
    before == 1
}

// The lowest edge with the ends of an earlier one.
fn lowest_repeat(row: &[u32], column: &[u32]) -> Option<usize>
    requires row_len { length row.now ≡ length column.now }
    requires by_index { (e : ℕ) → e < length row.now → Flagged (get_or row.now e 0) × Flagged (get_or column.now e 0) }
    ensures { result ≡ lowest (length row.now) (λ e. not (joined_in row.now column.now e (get_or row.now e 0) (get_or column.now e 0))) }
{
    let mut flags = [0u8; TABLE_FLAGS];
    for e in 0..row.len() {
        if note(&mut flags, row[e], column[e]) {
            return Some(e);
        }
    }
    None
}

// The tests on a graph's numbers, in their order: sizes, ends, weights, equal ends.
pub fn check_graph(s: Shape, row: &[u32], column: &[u32], weight: &[i32]) -> Result<(), Refusal>
    requires { (length row.now ≡ s.edges) × (length column.now ≡ s.edges) × (length weight.now ≡ s.edges) }
    ensures { result ≡ passing (graph_tests (graph_of s row.now column.now weight.now)) (Ok tt) }
{
    check_once(Fault::Sizes, ranges::sizes_in_range(s))?;
    check_each(Fault::Ends, lowest::lowest_ends(s, row, column))?;
    check_each(Fault::Weight, lowest::lowest_weight(weight))?;
    check_each(Fault::SameEnds, lowest_repeat(row, column))
}
