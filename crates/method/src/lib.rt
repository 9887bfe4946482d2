// The state of a search, and what is read of weights and edges.
#![tactic(auto)]

ghost use Rattle.std.specs.Prelude.{◌+◌, ◌*◌, ◌<◌, ◌≡◌, [], pos, ◌+ℤ◌, length, get_or};
ghost use Rattle.integers.specs.Integer.{up, Within};
ghost use Rattle.graph.specs.Limits.{greatest_weight};
ghost use Rattle.graph.specs.Graph.{graph_of, first_end, second_end};
ghost use Rattle.graph.specs.Passed.{Sound};
ghost use Rattle.method.specs.Method.{weightless};

use graph::{Ends, GREATEST_WEIGHT, MOST_VERTICES, Shape};

// The level stands for the price 0: prices are kept one level up, and weights two. It is the greatest weight as many times as there can be vertices.
pub const LEVEL: u32 = MOST_VERTICES as u32 * GREATEST_WEIGHT as u32;

// The weight 0, two levels up.
pub const WEIGHTLESS: u32 = 2 * LEVEL;

const TWO_LEVELS: i32 = WEIGHTLESS as i32;

// More than any distance: that of a vertex that is not reached.
pub const FAR: u32 = 1000000000;

// What is added to a way that is shut, so that it leads no nearer than FAR.
pub const SHUT: u32 = FAR + 2 * LEVEL;

// The list of the vertices reached has a place more than there are vertices.
pub const MOST_LISTED: usize = MOST_VERTICES + 1;

// What the searches read of the vertices: where the list of each starts, where that of a row vertex stops, and the least and the most of each.
#[derive(Clone, Copy)]
pub struct Table {
    pub start: [u32; MOST_VERTICES],
    pub stop: [u32; MOST_VERTICES],
    pub least: [u32; MOST_VERTICES],
    pub most: [u32; MOST_VERTICES],
}

// An edge that is kept for the searches, with its column vertex, and its weight two levels up.
#[derive(Clone, Copy)]
pub struct KeptEdge {
    pub edge: u32,
    pub head: u32,
    pub value: u32,
}

// What changes from search to search of the vertices: the price of each, and how many chosen edges it has.
#[derive(Clone, Copy)]
pub struct State {
    pub price: [u32; MOST_VERTICES],
    pub used: [u32; MOST_VERTICES],
}

// What a search has found: the labels of the vertices, which are edges, and the end of the path.
#[derive(Clone, Copy)]
pub struct Tree {
    pub label: [u32; MOST_VERTICES],
    pub end: usize,
}

// The weight of edge e, two levels up.
pub fn value_at(weight: &[i32], e: usize) -> u32
    requires { (e < length weight.now) × Within greatest_weight (get_or weight.now e (pos 0)) }
    ensures { result ≡ up (get_or weight.now e (pos 0) +ℤ pos weightless) }
{
    integers::natural_part(weight[e] + TWO_LEVELS)
}

// The ends of edge e.
pub fn ends_at(s: Shape, row: &[u32], column: &[u32], e: usize) -> Ends
    requires sound { Sound s row.now column.now }
    requires e_lt_edges { e < s.edges }
    ensures { (result.first ≡ first_end (graph_of s row.now column.now []) e) × (result.second ≡ second_end (graph_of s row.now column.now []) e) }
{
    s.ends_of(row[e], column[e])
}
