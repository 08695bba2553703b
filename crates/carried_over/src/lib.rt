// What goes on over a boundary between blocks: the duties that an engine has at the end of a block and at the start of the next.
#![tactic(auto)]

ghost use Rattle.std.specs.Prelude.{◌≡◌, ◌+◌, ◌≤◌, length};
ghost use Rattle.paper.specs.Limits.{most_engines};
ghost use Rattle.paper.specs.Rotation.{first_of};
ghost use Rattle.walk_laws.proofs.Page.{carried};
ghost use Rattle.row_edges.specs.Links.{link_by};
ghost use Rattle.carried_over.specs.Carried.{carried_of, closes_of, carried_in};

use paper::{Chain, Row};
use rotation::chain_of;
use row_edges::HeldEdges;
use table_tally::Accepted;

// Whether the duty at the end of a chain's last row goes on at the start of its first, to which that row's engine moves.
fn closes<E: HeldEdges>(edges: &E, chain: Chain) -> bool
    requires { (1 ≤ chain.length) × (chain.first.0 + chain.length ≤ most_engines + 1) }
    ensures { result ≡ closes_of (E.goes_on edges.now) chain }
{
    let last = chain.first.0 + chain.length - 1;
    edges.goes_on(Row(last), chain.first)
}

// At how many rows of a chain a duty is carried over a boundary: at each that another is chained to, and at the last where the chain
// closes.
fn carried_in<E: HeldEdges>(edges: &E, chain: Chain) -> u32
    requires { (1 ≤ chain.length) × (chain.first.0 + chain.length ≤ most_engines + 1) }
    ensures { (result ≡ carried_in (E.goes_on edges.now) chain) × (result ≤ chain.length) }
{
    if closes(edges, chain) {
        return chain.length;
    }
    chain.length - 1
}

// At how many rows a duty is carried over a boundary: those are no loads in any block but the first. The last row's chain ends with it.
pub fn carried<E: HeldEdges>(edges: &E, engines: u32) -> u32
    requires { (engines ≤ most_engines) × (first_of (link_by (E.goes_on edges.now)) engines ≡ engines) }
    ensures { (result ≡ carried_of (E.goes_on edges.now) engines) × (result ≤ engines) }
{
    let mut count = 0;
    let mut first = 0;
    // (d) No plainer over an iterator of chains: it would hold the edges, this `first` and the end, with a contract of how it goes on.
    while first < engines {
        let chain = chain_of(edges, Row(first));
        count += carried_in(edges, chain);
        first += chain.length;
    }
    count
}

// The same of a judged table.
pub fn kept_over(accepted: &Accepted) -> u32
    ensures told { result ≡ carried accepted.now }
    ensures few { result ≤ length accepted.now.runs }
{
    let engines = accepted.table().reading().engines;
    carried(accepted.edges(), engines)
}
