// The nodes and the costs of an assignment text, and the rows, columns and weights that they are.
#![tactic(auto)]

ghost use Rattle.std.specs.Prelude.{◌+◌, ◌-◌, ◌<◌, ◌≡◌, eqb, pos, neg_ℤ, length, get_or};
ghost use Rattle.integers.specs.Integer.{Within};
ghost use Rattle.graph.specs.Limits.{greatest_weight};

// A source node is the one after the first `rows` nodes.
pub fn is_next(node: u32, rows: u32) -> bool
    ensures { result ≡ eqb node (rows + 1) }
{
    u64::from(node) == u64::from(rows) + 1
}

// The source node of row vertex v: rows are counted from 0, and nodes from 1.
pub fn source_node(v: u32) -> u64
    ensures { result ≡ v + 1 }
{
    u64::from(v) + 1
}

// How many of the first nodes are beyond the rows; 0 where none is.
pub fn beyond(nodes: u32, rows: u32) -> u32
    ensures { result ≡ nodes - rows }
{
    nodes.saturating_sub(rows)
}

// The column of a target node: its place beyond the rows.
pub fn column_of(target: u32, rows: u32) -> u32
    ensures { result ≡ target - rows }
{
    target.saturating_sub(rows)
}

// The node of column c: the columns come after the rows.
pub fn column_node(rows: u32, c: u32) -> u64
    ensures { result ≡ rows + c }
{
    u64::from(rows) + u64::from(c)
}

// The weight of an arc's edge: the cost negated.
pub fn weight_at_cost(cost: i32) -> i32
    requires { Within greatest_weight cost }
    ensures { result ≡ neg_ℤ cost }
{
    -cost
}

// The cost of an arc: the edge's weight negated.
pub fn cost_of(weight: &[i32], e: usize) -> i64
    requires { e < length weight.now }
    ensures { result ≡ neg_ℤ (get_or weight.now e (pos 0)) }
{
    -i64::from(weight[e])
}
