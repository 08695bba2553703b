// Rules 13 to 17, of the runs of a table, in their order, each with the place that it reports, in two halves. 13 to 15 are said of rows:
// one pass tells the lowest run that breaks any of them, and only then is each searched by its name, from there on. 16 and 17 are said of
// duties, and need lists.
#![tactic(auto)]

ghost use Rattle.std.specs.Prelude.{◌≡◌, ◌≤◌, length};
ghost use Rattle.laws.proofs.Search.{Comparing};
ghost use Rattle.paper.specs.Rules.{overlaps, lowest};
ghost use Rattle.table_laws.proofs.Forerunners.{wrongly};
ghost use Rattle.table_tally.specs.Tally.{units_in};
ghost use Rattle.judge_runs.specs.Halves.{judge_rows, judge_service, passed_as};

use judge_forerunners::{bad_order, first_amiss, lowest_joint, lowest_overlap};
use judge_lowest::bad_sum;
use judge_twice::lowest_twice;
use paper::Fault;
use paper::limits::MOST_DUTIES;
use record_read::TableBytes;

// 13 to 15, one after the other, where no run before `from` breaks any of them: the lowest fault, if there is one.
fn search_rows(table: &TableBytes, from: usize) -> Result<(), Fault>
    requires { Comparing (wrongly table.now.runs) from }
    ensures { passed_as result table.now ≡ judge_rows table.now }
{
    let runs = table.runs();
    let unordered = bad_order(table, from);
    if unordered < runs {
        return Err(Fault::Order(unordered));
    }
    let overlapping = lowest_overlap(table, from);
    if overlapping < runs {
        return Err(Fault::Overlap(overlapping));
    }
    let joined = lowest_joint(table, from);
    if joined < runs {
        return Err(Fault::Joint(joined));
    }
    Ok(())
}

// 13 to 15: the lowest fault, if there is one.
pub fn judge_rows(table: &TableBytes) -> Result<(), Fault>
    ensures { passed_as result table.now ≡ judge_rows table.now }
{
    let amiss = first_amiss(table);
    if amiss < table.runs() {
        return search_rows(table, amiss);
    }
    Ok(())
}

// 16 and 17, where 14 is met, by the units of each duty: the lower fault, if there is one.
pub fn judge_service(table: &TableBytes, units: &[u32; MOST_DUTIES]) -> Result<(), Fault>
    requires { (units.now ≡ units_in table.now) × (length table.now.runs ≤ lowest overlaps table.now.runs) }
    ensures { passed_as result table.now ≡ judge_service table.now }
{
    let twice = lowest_twice(table);
    if twice < table.runs() {
        return Err(Fault::Twice(twice));
    }
    let wrong = bad_sum(table, units);
    if wrong < table.duties() {
        return Err(Fault::Service(wrong));
    }
    Ok(())
}
