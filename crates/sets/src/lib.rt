// The rules of odd sets (groups), their load and capacity, and which edges they cover. Odd sets count by k.
// A contract leaves out of the graph, as [], what its definition does not look at.
#![tactic(auto)]

ghost use Rattle.std.specs.Prelude.{ℕ, ◌+◌, ◌*◌, ◌≤◌, ◌<◌, min, ◌≡◌, not, ◌&&◌, ◌||◌, [], eqb, ltb, pos, length, get_or, ◌≤ℤ◌};
ghost use Rattle.integers.specs.Integer.{up};
ghost use Rattle.integers.specs.Sum.{sum};
ghost use Rattle.graph.specs.Limits.{most_vertices, most_edges, greatest_bound, most_sets, vertex_words, edge_words};
ghost use Rattle.graph.specs.Graph.{graph_of, vertices_in, bound_at};
ghost use Rattle.graph.specs.Refusal.{lowest};
ghost use Rattle.graph.specs.Passed.{Sound, Bounded, MarksHold};
ghost use Rattle.dual.specs.Sets.{one, inside, marked, nothing_above, has_vertex, one_end_inside, load};
ghost use Rattle.dual.specs.Gap.{chosen_covered};
ghost use Rattle.sets.specs.Words.{marks_of, HasSet, inside_by, covers_by, keeps_rules_by};

use graph::{EDGE_WORDS, Ends, MOST_SETS, Shape, VERTEX_WORDS};

// The words of odd sets: 2 a set mark vertices, and 16 a set mark edges.
#[derive(Clone, Copy)]
pub struct OddSets<'a> {
    pub vertices: &'a [u64],
    pub edges: &'a [u64],
}

// The sum of at most 1,024 terms, those of 0 .. n - 1, each at most 64.
fn sum_of<F: Fn(usize) -> u32>(n: usize, term: F) -> u32
    requires few { n ≤ most_edges }
    requires callable { (i : ℕ) → i < n → F.pre term i }
    requires small { (i x : ℕ) → i < n → F.post term i x → x ≤ 64 }
    ensures { (f : ℕ → ℕ) (most : ℕ) → ((i x : ℕ) → i < n → F.post term i x → (x ≡ f i) × (x ≤ most)) → (result ≡ sum n f) × (result ≤ most * n) }
{
    let mut total = 0;
    for i in 0..n {
        total += term(i);
    }
    total
}

// A table of the numbers of odd sets 0 .. count - 1, and of 0 after them.
fn table_of<F: Fn(usize) -> u32>(count: usize, number: F) -> [u32; MOST_SETS]
    requires few { count ≤ most_sets }
    requires callable { (k : ℕ) → k < count → F.pre number k }
    ensures { (k : ℕ) → k < count → F.post number k (get_or result k 0) }
{
    let mut table = [0; MOST_SETS];
    for k in 0..count {
        table[k] = number(k);
    }
    table
}

impl OddSets<'_> {
    // Whether vertex v is inside odd set k.
    fn is_inside(self, k: usize, v: usize) -> bool
        requires { HasSet (marks_of self) k × (v < most_vertices) }
        ensures { result ≡ inside (marks_of self.entry) k v }
    {
        bits::bit_at(self.vertices, VERTEX_WORDS * k, v)
    }

    // Whether odd set k marks edge e.
    fn is_marked(self, k: usize, e: usize) -> bool
        requires { HasSet (marks_of self) k × (e < most_edges) }
        ensures { result ≡ marked (marks_of self.entry) k e }
    {
        bits::bit_at(self.edges, EDGE_WORDS * k, e)
    }

    // How many of an edge's ends are inside odd set k.
    fn ends_inside(self, k: usize, ends: Ends) -> u32
        requires { HasSet (marks_of self) k × (ends.first < most_vertices) × (ends.second < most_vertices) }
        ensures { result ≡ inside_by (marks_of self.entry) k ends.first ends.second }
    {
        u32::from(self.is_inside(k, ends.first)) + u32::from(self.is_inside(k, ends.second))
    }

    // Whether odd set k covers edge e: it marks the edge, or both ends are inside.
    pub fn covers(self, k: usize, e: usize, ends: Ends) -> bool
        requires has_set { HasSet (marks_of self) k }
        requires e_lt_most_edges { (e < most_edges) × (ends.first < most_vertices) × (ends.second < most_vertices) }
        ensures { result ≡ covers_by (marks_of self.entry) k e ends.first ends.second }
    {
        let marked = self.is_marked(k, e);
        let inside = self.ends_inside(k, ends);
        marked || inside == 2
    }

    // Whether edge e is not marked, or has exactly one end inside.
    fn keeps_edge(self, k: usize, e: usize, ends: Ends) -> bool
        requires has_set { HasSet (marks_of self) k }
        requires e_lt_most_edges { (e < most_edges) × (ends.first < most_vertices) × (ends.second < most_vertices) }
        ensures { result ≡ (not (marked (marks_of self.entry) k e) || eqb (inside_by (marks_of self.entry) k ends.first ends.second) 1) }
    {
        !self.is_marked(k, e) || self.ends_inside(k, ends) == 1
    }

    // Whether no bit above n or m is set.
    fn nothing_above(self, s: Shape, k: usize) -> bool
        requires { HasSet (marks_of self) k }
        ensures { result ≡ nothing_above (graph_of s [] [] []) (marks_of self.entry) k }
    {
        let n = s.vertex_count();
        !bits::any_from(self.vertices, VERTEX_WORDS * k, VERTEX_WORDS, n)
            && !bits::any_from(self.edges, EDGE_WORDS * k, EDGE_WORDS, s.edges as u64)
    }

    // Whether a vertex is inside.
    fn has_vertex(self, s: Shape, k: usize) -> bool
        requires { HasSet (marks_of self) k × (vertices_in s ≤ most_vertices) }
        ensures { result ≡ has_vertex (graph_of s [] [] []) (marks_of self.entry) k }
    {
        let n = s.vertex_count() as usize;
        (0..n).any(|v| self.is_inside(k, v))
    }

    // Whether each marked edge has exactly one end inside.
    fn one_end_inside(self, s: Shape, row: &[u32], column: &[u32], k: usize) -> bool
        requires sound { Sound s row.now column.now }
        requires has_set { HasSet (marks_of self) k }
        ensures { result ≡ one_end_inside (graph_of s row.now column.now []) (marks_of self.entry) k }
    {
        (0..row.len()).all(|e| self.keeps_edge(k, e, s.ends_of(row[e], column[e])))
    }

    // The bound of vertex v where it is inside, else 0.
    fn bound_inside(self, bound: &[i32], k: usize, v: usize) -> u32
        requires v_in_bounds { HasSet (marks_of self) k × (v < length bound.now) × (v < most_vertices) }
        requires pos_bound { (pos 0 ≤ℤ bound_at bound.now v) × (bound_at bound.now v ≤ℤ pos greatest_bound) }
        ensures { (result ≡ one (inside (marks_of self.entry) k v) * up (bound_at bound.now v)) × (result ≤ greatest_bound) }
    {
        if self.is_inside(k, v) {
            integers::natural(bound[v])
        } else {
            0
        }
    }

    // The load of odd set k: the bounds of the vertices inside plus the marked edges, which are counted word by word.
    fn load_of(self, s: Shape, bound: &[i32], k: usize) -> u32
        requires bounded { Bounded (vertices_in s) bound.now × (vertices_in s ≤ most_vertices) × (s.edges ≤ most_edges) }
        requires has_set { HasSet (marks_of self) k }
        ensures { (result ≡ load (graph_of s [] [] []) bound.now (marks_of self.entry) k) × (result ≤ greatest_bound * most_vertices + most_edges) }
    {
        let n = s.vertex_count() as usize;
        let bounds = sum_of(n, |v| self.bound_inside(bound, k, v));
        bounds + bits::ones(self.edges, EDGE_WORDS * k, EDGE_WORDS, s.edges as u64)
    }

    // The loads of all odd sets, of the first 16 where there are more. A capacity is half the load, rounded down.
    pub fn load_table(self, s: Shape, bound: &[i32], sets: u32) -> [u32; MOST_SETS]
        requires bounded { Bounded (vertices_in s) bound.now × (vertices_in s ≤ most_vertices) × (s.edges ≤ most_edges) }
        requires words_len { (length self.vertices.now ≡ vertex_words * sets) × (length self.edges.now ≡ edge_words * sets) }
        ensures { (k : ℕ) → k < min sets most_sets →
            (get_or result k 0 ≡ load (graph_of s [] [] []) bound.now (marks_of self.entry) k) × (get_or result k 0 ≤ greatest_bound * most_vertices + most_edges) }
    {
        let count = (sets as usize).min(MOST_SETS);
        table_of(count, |k| self.load_of(s, bound, k))
    }

    // Whether odd set k, whose load is this, keeps the rules.
    fn keeps_rules(self, s: Shape, row: &[u32], column: &[u32], k: usize, load: u32) -> bool
        requires sound { Sound s row.now column.now }
        requires has_set { HasSet (marks_of self) k }
        ensures { result ≡ keeps_rules_by (graph_of s row.now column.now []) (marks_of self.entry) k load }
    {
        self.nothing_above(s, k)
            && self.has_vertex(s, k)
            && self.one_end_inside(s, row, column, k)
            && load % 2 == 1
    }

    // Whether odd set k is one of the first 16 and keeps the rules.
    fn is_allowed(
        self,
        s: Shape,
        row: &[u32],
        column: &[u32],
        k: usize,
        load: [u32; MOST_SETS],
    ) -> bool
        requires sound { Sound s row.now column.now }
        requires has_set { HasSet (marks_of self) k }
        ensures { result ≡ (ltb k most_sets && keeps_rules_by (graph_of s row.now column.now []) (marks_of self.entry) k (get_or load k 0)) }
    {
        k < MOST_SETS && self.keeps_rules(s, row, column, k, load[k])
    }

    // The lowest odd set that breaks a rule, or the 17th; their loads are told.
    pub fn lowest_set(
        self,
        s: Shape,
        row: &[u32],
        column: &[u32],
        load: [u32; MOST_SETS],
        sets: u32,
    ) -> Option<usize>
        requires sound { Sound s row.now column.now }
        requires words_len { (length self.vertices.now ≡ vertex_words * sets) × (length self.edges.now ≡ edge_words * sets) }
        ensures { result ≡ lowest (min sets (most_sets + 1)) (λ k. ltb k most_sets && keeps_rules_by (graph_of s row.now column.now []) (marks_of self.entry) k (get_or load k 0)) }
    {
        let count = (sets as usize).min(MOST_SETS + 1);
        (0..count).find(|k| !self.is_allowed(s, row, column, *k, load))
    }

    // How many chosen edges odd set k covers.
    fn covered_by(self, s: Shape, row: &[u32], column: &[u32], chosen: &[u8], k: usize) -> u32
        requires sound { Sound s row.now column.now × MarksHold s.edges chosen.now }
        requires has_set { HasSet (marks_of self) k }
        ensures { (result ≡ chosen_covered (graph_of s row.now column.now []) chosen.now (marks_of self.entry) k) × (result ≤ most_edges) }
    {
        sum_of(chosen.len(), |e| {
            let ends = s.ends_of(row[e], column[e]);
            u32::from(chosen[e] == 1 && self.covers(k, e, ends))
        })
    }

    // How many chosen edges each odd set covers.
    pub fn covered_table(
        self,
        s: Shape,
        row: &[u32],
        column: &[u32],
        chosen: &[u8],
        sets: u32,
    ) -> [u32; MOST_SETS]
        requires sound { Sound s row.now column.now × MarksHold s.edges chosen.now }
        requires sets_le_most_sets { (sets ≤ most_sets) × (length self.vertices.now ≡ vertex_words * sets) × (length self.edges.now ≡ edge_words * sets) }
        ensures { (k : ℕ) → k < sets → (get_or result k 0 ≡ chosen_covered (graph_of s row.now column.now []) chosen.now (marks_of self.entry) k) × (get_or result k 0 ≤ most_edges) }
    {
        table_of(
            sets as usize,
            |k| self.covered_by(s, row, column, chosen, k),
        )
    }
}
