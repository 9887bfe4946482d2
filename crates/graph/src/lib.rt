// The types that every call speaks of: kinds of graph, and refusals; how many vertices there are, an edge's ends, and degrees.
#![tactic(auto)]

ghost use Rattle.std.specs.Prelude.{ℕ, ◌-◌, ◌≤◌, ◌<◌, ◌≡◌, [], length, get_or};
ghost use Rattle.graph.specs.Limits.{most_vertices};
ghost use Rattle.graph.specs.Refusal.{number_of};
ghost use Rattle.graph.specs.Graph.{graph_of, vertices_in, column_vertex};
ghost use Rattle.graph.specs.Subgraph.{degree};
ghost use Rattle.graph.specs.Passed.{Sound, MarksHold};
ghost use Rattle.graph.specs.Degrees.{Grown};

// The sort of sheet: two-sided, from row vertices to column vertices, or one-sided.
#[derive(Clone, Copy, Debug, PartialEq, Eq)]
pub enum Kind {
    Bipartite,
    General,
}

// What tells a graph but for its edges: its kind, and how many rows, columns and edges it has.
#[derive(Clone, Copy, Debug, PartialEq, Eq)]
pub struct Shape {
    pub kind: Kind,
    pub rows: u32,
    pub columns: u32,
    pub edges: u32,
}

// The ranges and lengths of documents 01 and 02, as specs/Limits.antt defines them.
pub const MOST_SIDE: u32 = 64;

pub const MOST_VERTICES: usize = 128;

pub const MOST_EDGES: usize = 1024;

pub const MOST_NUMBERS: usize = MOST_VERTICES + MOST_EDGES;

pub const MOST_OLD_NUMBERS: usize = MOST_VERTICES + MOST_EDGES;

pub const MOST_DOUBLED_EDGES: u32 = 512;

pub const LEAST_WEIGHT: i32 = -1000000;

pub const GREATEST_WEIGHT: i32 = 1000000;

pub const GREATEST_BOUND: i32 = 64;

pub const GREATEST_PRICE: i32 = 4000000;

pub const GREATEST_OLD_PRICE: i32 = 2000000;

pub const MOST_SETS: usize = 16;

pub const VERTEX_WORDS: usize = 2;

pub const EDGE_WORDS: usize = 16;

pub const LONGEST_TEXT: usize = 32768;

pub const LONGEST_LINE: usize = 1024;

pub const SUBGRAPH_BYTES: usize = 16384;

pub const WORKSPACE_NUMBERS: usize = 4096;

pub const MOST_INDEX: usize = MOST_VERTICES + 1 + 2 * MOST_EDGES;

// What is refused, in the order of the refusal table.
#[derive(Clone, Copy, Debug, PartialEq, Eq)]
pub enum Fault {
    TextLength,
    Header,
    SizeLine,
    Sizes,
    LaterLine,
    Ends,
    Weight,
    SameEnds,
    LentLength,
    Bound,
    Mark,
    Degree,
    Price,
    OddSet,
    Uncovered,
    NotBipartite,
    Disagreement,
    WrongIndex,
    BoundNotOne,
    AssignmentLine,
    Sources,
    NotDoubled,
}

// A refusal: what is refused, and its place.
#[derive(Clone, Copy, Debug, PartialEq, Eq)]
pub struct Refusal {
    pub fault: Fault,
    pub place: u64,
}

// The number of a fault in the refusal table.
impl From<Fault> for u32 {
    ghost from_gives = { λ fault number. number ≡ number_of fault };

    fn from(fault: Fault) -> u32 {
        match fault {
            Fault::TextLength => 1,
            Fault::Header => 2,
            Fault::SizeLine => 3,
            Fault::Sizes => 4,
            Fault::LaterLine => 5,
            Fault::Ends => 6,
            Fault::Weight => 7,
            Fault::SameEnds => 8,
            Fault::LentLength => 9,
            Fault::Bound => 10,
            Fault::Mark => 11,
            Fault::Degree => 12,
            Fault::Price => 13,
            Fault::OddSet => 14,
            Fault::Uncovered => 15,
            Fault::NotBipartite => 16,
            Fault::Disagreement => 17,
            Fault::WrongIndex => 18,
            Fault::BoundNotOne => 19,
            Fault::AssignmentLine => 20,
            Fault::Sources => 21,
            Fault::NotDoubled => 24,
        }
    }
}

// The two ends of an edge, as vertices.
#[derive(Clone, Copy, Debug, PartialEq, Eq)]
pub struct Ends {
    pub first: usize,
    pub second: usize,
}

impl Shape {
    // n, the number of vertices.
    pub fn vertex_count(self) -> u64
        ensures { result ≡ vertices_in self }
    {
        match self.kind {
            Kind::Bipartite => self.rows as u64 + self.columns as u64,
            Kind::General => self.rows as u64,
        }
    }

    // The vertex of a column.
    fn column_vertex(self, c: u32) -> usize
        requires { 1 ≤ c }
        ensures { result ≡ column_vertex self.kind self.rows c }
    {
        match self.kind {
            Kind::Bipartite => self.rows as usize + (c - 1) as usize,
            Kind::General => (c - 1) as usize,
        }
    }

    // The ends of an edge in row r and column c.
    pub fn ends_of(self, r: u32, c: u32) -> Ends
        requires { (1 ≤ r) × (1 ≤ c) }
        ensures { (result.first ≡ r - 1) × (result.second ≡ column_vertex self.kind self.rows c) }
    {
        Ends {
            first: (r - 1) as usize,
            second: self.column_vertex(c),
        }
    }
}

// Adds an edge's mark to the degrees of its two ends.
fn add_edge(degree: &mut [u32], ends: Ends, mark: u8)
    requires degree_len { (length degree.old ≡ most_vertices) × (ends.first < most_vertices) × (ends.second < most_vertices) }
    requires by_index { (v : ℕ) → v < most_vertices → get_or degree.old v 0 ≤ 65536 }
    ensures { Grown degree.old degree.new ends.first ends.second mark }
{
    let first = ends.first;
    let second = ends.second;
    degree[first] += mark as u32;
    degree[second] += mark as u32;
}

// The degree of every vertex, in one pass over the edges.
pub fn degrees(s: Shape, row: &[u32], column: &[u32], chosen: &[u8]) -> [u32; MOST_VERTICES]
    requires sound { Sound s row.now column.now }
    requires marks_hold { MarksHold s.edges chosen.now }
    ensures { (v : ℕ) → v < most_vertices → get_or result v 0 ≡ degree (graph_of s row.now column.now []) chosen.now v }
{
    let mut degree = [0u32; MOST_VERTICES];
    for e in 0..row.len() {
        add_edge(&mut degree, s.ends_of(row[e], column[e]), chosen[e]);
    }
    degree
}
