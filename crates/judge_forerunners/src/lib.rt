// Rules 13 to 15, for which each run is held against its forerunner, the run before it, and against no other: the lowest run of a table
// that breaks them. Run 0 has no forerunner.
#![tactic(auto)]

ghost use Rattle.std.specs.Prelude.{◌≡◌, ◌≤◌, length};
ghost use Rattle.laws.specs.Search.{first};
ghost use Rattle.laws.proofs.Search.{beside, Comparing};
ghost use Rattle.paper.specs.Rules.{overlaps, joins, lowest, bad_order};
ghost use Rattle.table_laws.proofs.Forerunners.{wrongly};

use judge_pairs::{do_overlap, does_join, is_before, is_wrong};
use record_read::TableBytes;
use search::lowest;

// The lowest run that breaks 13, 14 or 15, or how many runs there are.
pub fn first_amiss(table: &TableBytes) -> usize
    ensures { result ≡ first (beside (wrongly table.now.runs)) (length table.now.runs) }
{
    let runs = table.runs();
    lowest(1, runs, |k| is_wrong(table.run(k - 1), table.run(k)))
}

// 13. The lowest run that is not after its forerunner, or how many runs there are; none before `from` breaks 13, 14 or 15.
pub fn bad_order(table: &TableBytes, from: usize) -> usize
    requires { Comparing (wrongly table.now.runs) from }
    ensures { result ≡ bad_order table.now }
{
    let runs = table.runs();
    lowest(from, runs, |k| !is_before(table.run(k - 1), table.run(k)))
}

// 14. The lowest run that shares a unit with its forerunner on one row, or how many runs there are. The runs are in order, so that is the
// lowest that shares a unit with any earlier run of its row.
pub fn lowest_overlap(table: &TableBytes, from: usize) -> usize
    requires { Comparing (wrongly table.now.runs) from × (length table.now.runs ≤ bad_order table.now) }
    ensures { result ≡ lowest overlaps table.now.runs }
{
    let runs = table.runs();
    lowest(from, runs, |k| do_overlap(table.run(k - 1), table.run(k)))
}

// 15. The lowest run that starts where its forerunner of the same row and duty stops, or how many runs there are. On a row the runs are in
// order and share no unit, so that is the lowest that starts where any such run stops.
pub fn lowest_joint(table: &TableBytes, from: usize) -> usize
    requires { Comparing (wrongly table.now.runs) from × (length table.now.runs ≤ bad_order table.now)
        × (length table.now.runs ≤ lowest overlaps table.now.runs) }
    ensures { result ≡ lowest joins table.now.runs }
{
    let runs = table.runs();
    lowest(from, runs, |k| does_join(table.run(k - 1), table.run(k)))
}
