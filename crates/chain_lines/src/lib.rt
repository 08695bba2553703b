// The lines of what follows from a judged table: one for each chain, and one for the loads.
#![tactic(auto)]

ghost use Rattle.std.specs.Prelude.{◌*◌, ◌≤◌, length};
ghost use Rattle.paper.specs.Limits.{most_engines, chain_line_room, rotation_lines_room};
ghost use Rattle.paper.specs.Outcome.{Puts};
ghost use Rattle.chain_lines.specs.Parts.{chain_lines, rotation_lines};

use carried_over::kept_over;
use paper::Row;
use rotation::chain_of;
use table_lines::{print_chain, print_loads};
use table_tally::Accepted;

// The chains, by first row: past the last row of one the next begins. Of each its first row and its length.
fn print_chains(out: &mut [u8], accepted: &Accepted) -> usize
    requires { chain_line_room * most_engines ≤ length out.old }
    ensures puts { Puts (chain_lines accepted.now) out.old out.new result }
    ensures upper_bound { result ≤ chain_line_room * most_engines }
{
    let edges = accepted.edges();
    let engines = accepted.table().reading().engines;
    let mut at = 0;
    let mut first = 0;
    // (d) No plainer over an iterator of chains: it would hold the edges, this `first` and the end, with a contract of how it goes on.
    while first < engines {
        let chain = chain_of(edges, Row(first));
        at += print_chain(&mut out[at..], chain);
        first += chain.length;
    }
    at
}

// Chains and loads. Each run is a load in block 0; in a later block the duties that are kept over the boundary are none.
pub fn print_rotation(out: &mut [u8], accepted: &Accepted) -> usize
    requires { rotation_lines_room ≤ length out.old }
    ensures puts { Puts (rotation_lines accepted.now) out.old out.new result }
    ensures upper_bound { result ≤ rotation_lines_room }
{
    let at = print_chains(out, accepted);
    let runs = accepted.table().reading().runs;
    let kept = kept_over(accepted);
    at + print_loads(&mut out[at..], runs, runs - kept)
}
