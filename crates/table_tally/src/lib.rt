// One pass over the runs of a table: the units of each duty, for the judge, and what holds the first and the last unit of each row, for the
// rotation. And a table that meets the rules, with its rows' edges, as those who ask on take it.
// `as` stands where std has no `From` (32 bits to usize, usize to u64), or where it is proved that nothing is lost (d).
#![tactic(auto)]

ghost use Rattle.std.specs.Prelude.{◌≡◌, ◌≤◌, ◌<◌, Some};
ghost use Rattle.laws.specs.Choice.{pick};
ghost use Rattle.paper.specs.Words.{stop, covers};
ghost use Rattle.paper.specs.Limits.{small, most_ticks, most_duties};
ghost use Rattle.paper.specs.Rotation.{first_of, link};
ghost use Rattle.paper.specs.Statements.{Ranged, Meets};
ghost use Rattle.row_edges.specs.Links.{link_of};
ghost use Rattle.table_tally.specs.Tally.{units_in, edges_of};
ghost use Rattle.table_tally.specs.Ready.{Ready};

use paper::Run;
use paper::limits::MOST_DUTIES;
use record_read::{TableBytes, run_covers};
use row_edges::{Edge, Edges, RowEdges};
use std::marker::Model;

// What holds a unit of a run's row: the run's duty where the run has the unit, else what held it before.
fn edge(x: Run, unit: u32, old: Edge) -> Edge
    requires { (stop x ≤ most_ticks) × (x.duty < most_duties) }
    ensures { result ≡ pick (covers x x.row unit) (Some x.duty) old }
{
    if run_covers(x, x.row, unit) {
        // `as`, since no number is lost (proved): `try_from` would have an error to answer for that never comes.
        Some(x.duty as u8)
    } else {
        old
    }
}

// Tallies a table: the units of each duty, and the edges of the rows. The first run that has a unit holds it, so the runs are passed from
// the last to the first. Both are lent, so that nothing is copied on its way to those who ask on.
pub fn tally(table: &TableBytes, units: &mut [u32; MOST_DUTIES], edges: &mut Edges)
    ensures units { units.new ≡ units_in table.now }
    ensures edges { edges.new.rows ≡ edges_of table.now }
{
    *units = [0; MOST_DUTIES];
    *edges = Edges::new();
    let reading = table.reading();
    let last = reading.block_length - 1;
    for k in (0..table.runs()).rev() {
        let x = table.run(k);
        units[x.duty as usize] += x.length;
        let row = x.row.0 as usize;
        let old = edges.rows[row];
        edges.rows[row] = RowEdges {
            first: edge(x, 0, old.first),
            last: edge(x, last, old.last),
        };
    }
}

// A table that meets the rules, with the edges of its rows, ready to be asked. A contract sees the table. The edges stay where they were
// gathered.
#[derive(Drop)]
pub struct Accepted<'a> {
    table: TableBytes<'a>,
    edges: &'a Edges,
}

impl<'a> Model for Accepted<'a> {
    ghost use Rattle.paper.specs.Words.{Table};

    ghost Value = { Table };

    ghost use Rattle.table_tally.specs.Ready.{Ready};

    ghost view = { λ a. a.table };

    ghost invariant = { λ a. Ready a.table a.edges.now.rows };
}

impl<'a> Accepted<'a> {
    // A table that meets the rules, and the edges that its tally gathered.
    pub fn new(table: TableBytes<'a>, edges: &'a Edges) -> Accepted<'a>
        requires { Ready table edges.now.rows }
        ensures { result ≡ table.entry }
    {
        Accepted { table, edges }
    }

    // Its bytes.
    pub fn table(&self) -> &TableBytes<'a>
        ensures same { result.now ≡ self.now }
        ensures ranged { Ranged small self.now }
        ensures meets { Meets self.now }
    {
        &self.table
    }

    // The edges of its rows. They tell its links, and the chain of its last row ends with it.
    pub fn edges(&self) -> &Edges
        ensures told { result.now.rows ≡ edges_of self.now }
        ensures links { link_of result.now.rows ≡ link self.now }
        ensures ends { first_of (link_of result.now.rows) self.now.engines ≡ self.now.engines }
    {
        self.edges
    }
}
