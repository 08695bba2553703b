// The rows of all engines in a block, worked out from the block's number, chain by chain.
// `as` stands where std has no `From` (32 bits to usize, usize to u64), or where it is proved that nothing is lost (d).
#![tactic(auto)]

ghost use Rattle.std.specs.Prelude.{◌≡◌, ◌≤◌};
ghost use Rattle.paper.specs.Limits.{most_engines};
ghost use Rattle.paper.specs.Answers.{rows_at};
ghost use Rattle.paper.specs.Rotation.{link};
ghost use Rattle.row_edges.specs.Links.{link_of};
ghost use Rattle.rotation.specs.Turning.{IsTurned};
ghost use Rattle.dispatch_rows.specs.AtHand.{AtHand};

use paper::limits::MOST_ENGINES;
use paper::{Engine, Row};
use rotation::{Turned, row_of, turned_at};
use row_edges::Edges;
use table_tally::Accepted;

// The chain of a row in a block: the one at hand, if it reaches so far, or else the next.
fn onward(edges: &Edges, block: u64, turned: Turned, row: Row) -> Turned
    requires { (row.0 ≤ most_engines) × AtHand (link_of edges.now.rows) block row.0 turned }
    ensures { IsTurned (link_of edges.now.rows) block row.0 result }
{
    if row.0 < turned.chain.first.0 + turned.chain.length {
        return turned;
    }
    turned_at(edges, row, block)
}

// The rows of all engines in a block: one chain after the other, each found once.
pub fn rows_at(accepted: &Accepted, block: u64) -> [Row; MOST_ENGINES]
    ensures { result ≡ rows_at (link accepted.now) accepted.now.engines block }
{
    let edges = accepted.edges();
    let engines = accepted.table().reading().engines;
    let mut rows = [Row(0); MOST_ENGINES];
    let mut turned = turned_at(edges, Row(0), block);
    // (c) Tried over `(0..engines).zip(&mut rows)`: no proof, since nothing is known of rows that are written through an adapter of `&mut`.
    for i in 0..engines {
        turned = onward(edges, block, turned, Row(i));
        let at = i as usize;
        rows[at] = row_of(turned, Engine(i));
    }
    rows
}
