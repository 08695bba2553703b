// The edges of rows, and their links: which row is chained to the one before it, by what holds the first and the last unit of each row, as
// the tally tells it, or as codes of 32 bits that anyone may have.
// `as` stands where std has no `From` (32 bits to usize, usize to u64), or where it is proved that nothing is lost (d).
#![tactic(auto)]

ghost use Rattle.std.specs.Prelude.{ℕ, ◌≡◌, ◌+◌, ◌≤◌, ◌<◌, Bool, replicate};
ghost use Rattle.paper.specs.Duties.{same};
ghost use Rattle.paper.specs.Limits.{most_engines};
ghost use Rattle.row_edges.specs.Links.{idle_edges, first_edge, last_edge, link_of, rows_go_on, same_code, codes_go_on};

use paper::Row;
use paper::limits::EDGE_ROWS;

// What holds an edge: nothing, or a duty by its number, which is one byte as in its record. So the edges of all rows are small.
pub type Edge = Option<u8>;

// What holds the first and the last unit of a row.
#[derive(Clone, Copy, Debug, PartialEq, Eq)]
pub struct RowEdges {
    pub first: Edge,
    pub last: Edge,
}

// The edges of all rows that there may be, and of one past them, which is idle.
#[derive(Clone, Copy, Debug, PartialEq, Eq)]
pub struct Edges {
    pub rows: [RowEdges; EDGE_ROWS],
}

// Two codes for each of these rows: what holds its first unit and what holds its last, each 0 for idle, else the duty's number and 1.
pub const EDGES: usize = 2 * EDGE_ROWS;

// Whatever tells of two rows whether one duty holds the last unit of the one and the first unit of the other.
pub trait HeldEdges {
    ghost goes_on: { Self → ℕ → ℕ → Bool };

    fn goes_on(&self, last: Row, first: Row) -> bool
        requires { (last.0 ≤ most_engines) × (first.0 ≤ most_engines) }
        ensures { result ≡ goes_on self.now last.0 first.0 };
}

// Whether one duty holds both, of two edges.
#[tactic(auto, unfolding(paper::specs::Duties::same))]
pub fn same_duty(g: Edge, h: Edge) -> bool
    ensures { result ≡ same g h }
{
    g.is_some() && g == h
}

impl Edges {
    // Of rows that hold nothing at their edges.
    pub fn new() -> Edges
        ensures { result.rows ≡ replicate (most_engines + 1) idle_edges }
    {
        Edges {
            rows: [RowEdges {
                first: None,
                last: None,
            }; EDGE_ROWS],
        }
    }

    // What holds the first unit of a row.
    pub fn first(&self, row: Row) -> Edge
        requires { row.0 ≤ most_engines }
        ensures { result ≡ first_edge self.now.rows row.0 }
    {
        self.rows[row.0 as usize].first
    }

    // What holds the last unit of a row.
    pub fn last(&self, row: Row) -> Edge
        requires { row.0 ≤ most_engines }
        ensures { result ≡ last_edge self.now.rows row.0 }
    {
        self.rows[row.0 as usize].last
    }

    // Whether the row after this one is chained to it.
    #[tactic(auto, unfolding(crate::specs::Links::link_by))]
    pub fn linked(&self, row: Row) -> bool
        requires { row.0 < most_engines }
        ensures { result ≡ link_of self.now.rows row.0 }
    {
        same_duty(self.last(row), self.first(Row(row.0 + 1)))
    }
}

impl HeldEdges for Edges {
    ghost goes_on = { λ edges. rows_go_on edges.rows };

    fn goes_on(&self, last: Row, first: Row) -> bool {
        same_duty(self.last(last), self.first(first))
    }
}

// Whether one duty holds both, of two codes.
pub fn same_code(g: u32, h: u32) -> bool
    ensures { result ≡ same_code g h }
{
    g != 0 && g == h
}

// Codes with any entries, also such as no duty has.
impl HeldEdges for [u32; EDGES] {
    ghost goes_on = { codes_go_on };

    fn goes_on(&self, last: Row, first: Row) -> bool {
        same_code(self[2 * last.0 as usize + 1], self[2 * first.0 as usize])
    }
}
