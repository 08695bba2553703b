// The rotation: the chains of rows, and which row an engine runs in a block. It needs no more of a table than what holds the
// first and the last unit of each row, as the tally tells it; and whatever tells of edges will do.
// `as` stands where std has no `From` (32 bits to usize, usize to u64), or where it is proved that nothing is lost (d).
#![tactic(auto)]

ghost use Rattle.std.specs.Prelude.{◌≡◌, ◌+◌, ◌%◌, ◌≤◌, ◌<◌};
ghost use Rattle.paper.specs.Limits.{most_engines};
ghost use Rattle.paper.specs.Rotation.{first_of, row_at};
ghost use Rattle.walk_laws.proofs.Page.{InChain};
ghost use Rattle.row_edges.specs.Links.{link_by};
ghost use Rattle.rotation.specs.Turning.{IsLast, IsTurned, round};

use paper::limits::MOST_ROWS;
use paper::{Chain, Engine, Row};
use row_edges::HeldEdges;

// The first row of a row's chain: down along the links.
fn chain_first<E: HeldEdges>(edges: &E, row: Row) -> Row
    requires { row.0 ≤ most_engines }
    ensures { (result.0 ≡ first_of (link_by (E.goes_on edges.now)) row.0) × (result.0 ≤ row.0) }
{
    // (c) Tried as `(0..row.0).rev().find(..)`: no proof, since the library has no lemma of what a range yields from its end down.
    for r in (0..row.0).rev() {
        if !edges.goes_on(Row(r), Row(r + 1)) {
            return Row(r + 1);
        }
    }
    Row(0)
}

// The last row of a row's chain: up along the links. Nothing is chained to the row past the last that there may be.
fn chain_last<E: HeldEdges>(edges: &E, row: Row) -> Row
    requires { row.0 ≤ most_engines }
    ensures { IsLast (link_by (E.goes_on edges.now)) row.0 result.0 }
{
    let last = (row.0..MOST_ROWS).find(|r| !edges.goes_on(Row(*r), Row(*r + 1)));
    Row(last.unwrap_or(MOST_ROWS))
}

// The chain of a row.
pub fn chain_of<E: HeldEdges>(edges: &E, row: Row) -> Chain
    requires { row.0 ≤ most_engines }
    ensures { InChain (link_by (E.goes_on edges.now)) row.0 result × (result.first.0 + result.length ≤ most_engines + 1) }
{
    let first = chain_first(edges, row);
    let last = chain_last(edges, row);
    let length = last.0 + 1 - first.0;
    Chain { first, length }
}

// A chain in a block: each of its engines is so many places further round it than in block 0.
#[derive(Clone, Copy, Debug, PartialEq, Eq)]
pub struct Turned {
    pub chain: Chain,
    pub places: u32,
}

// The chain of a row, in a block.
pub fn turned_at<E: HeldEdges>(edges: &E, row: Row, block: u64) -> Turned
    requires { row.0 ≤ most_engines }
    ensures { IsTurned (link_by (E.goes_on edges.now)) block row.0 result }
{
    let chain = chain_of(edges, row);
    let places = (block % u64::from(chain.length)) as u32;
    Turned { chain, places }
}

// The row that an engine runs: in block 0 the row of its own number, and in each block so many places further round that row's chain. Here
// alone an engine is turned into a row.
pub fn row_of(turned: Turned, engine: Engine) -> Row
    requires first_le_engine { (turned.chain.first.0 ≤ engine.0) × (engine.0 < turned.chain.first.0 + turned.chain.length) }
    requires length_bound { (turned.chain.first.0 + turned.chain.length ≤ most_engines + 1) × (turned.places < turned.chain.length) }
    ensures { result ≡ round turned.chain engine.0 turned.places }
{
    let first = turned.chain.first.0;
    let length = turned.chain.length;
    let on = engine.0 - first + turned.places;
    if on < length {
        return Row(first + on);
    }
    Row(first + (on - length))
}

// The row that an engine runs in a block.
pub fn row_in<E: HeldEdges>(edges: &E, engine: Engine, block: u64) -> Row
    requires { engine.0 ≤ most_engines }
    ensures { result ≡ row_at (link_by (E.goes_on edges.now)) block engine }
{
    row_of(turned_at(edges, Row(engine.0), block), engine)
}
