// The judge of tables: the form of the bytes, then the rules. One pass over the runs serves the judge and those who ask on.
#![tactic(auto)]

ghost use Rattle.std.specs.Prelude.{◌≡◌};
ghost use Rattle.paper.specs.Outcome.{judged_as};
ghost use Rattle.paper.specs.Rules.{accepted, judged, judge_duties};
ghost use Rattle.table_form.specs.FormAs.{form_as};
ghost use Rattle.judge_runs.specs.Halves.{passed_as};

use judge_lowest::{bad_slice, is_undivided};
use judge_runs::{judge_rows, judge_service};
use paper::limits::MOST_DUTIES;
use paper::{Fault, Reading};
use record_read::TableBytes;
use row_edges::Edges;
use table_form::form_of;
use table_tally::{Accepted, tally};

// Rules 11 and 12, of the duties of a table: the lower fault, if there is one.
#[tactic(auto, unfolding(paper::specs::Rules::judge_duties))]
fn judge_duties(table: &TableBytes) -> Result<(), Fault>
    ensures { passed_as result table.now ≡ judge_duties table.now }
{
    if is_undivided(table) {
        return Err(Fault::BlockLength);
    }
    let d = bad_slice(table);
    if d < table.duties() {
        return Err(Fault::Slice(d));
    }
    Ok(())
}

// Judges any bytes: the accepted table with the edges of its rows, for those who ask on, or the lowest fault with its place. The edges are
// gathered where the caller lends room for them. The rules of the duties look at no run, and those of the rows need no list.
#[tactic(auto, using(judge_runs::proofs::Halves::halves), unfolding(paper::specs::Rules::accepted, paper::specs::Rules::judge_table))]
pub fn rule_on<'a>(b: &'a [u8], edges: &'a mut Edges) -> Result<Accepted<'a>, Fault>
    ensures { form_as result ≡ accepted b.now }
{
    let table = form_of(b)?;
    judge_duties(&table)?;
    judge_rows(&table)?;
    let mut units = [0; MOST_DUTIES];
    tally(&table, &mut units, edges);
    judge_service(&table, &units)?;
    Ok(Accepted::new(table, edges))
}

// Judges any bytes: the reading of an accepted table, or the lowest fault with its place.
pub fn judge(b: &[u8]) -> Result<Reading, Fault>
    ensures { judged_as result ≡ judged b.now }
{
    let mut edges = Edges::new();
    let accepted = rule_on(b, &mut edges)?;
    Ok(accepted.table().reading())
}
