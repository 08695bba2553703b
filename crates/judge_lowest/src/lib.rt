// Of the rules that are said of a duty, the lowest duty of a table that breaks it: 12, a slice that is not whole; 17, runs that do not add
// up to the slice. Rule 11 has no place: it is told whether it is broken.
#![tactic(auto)]

ghost use Rattle.std.specs.Prelude.{◌≡◌};
ghost use Rattle.paper.specs.Words.{undivided};
ghost use Rattle.paper.specs.Builder.{bad_slice};
ghost use Rattle.paper.specs.Rules.{bad_sum};
ghost use Rattle.table_tally.specs.Tally.{units_in};

use paper::limits::MOST_DUTIES;
use record_read::TableBytes;
use search::lowest;
use slices::{is_whole, share_of};

// 11. Whether T does not divide every period.
pub fn is_undivided(table: &TableBytes) -> bool
    ensures { result ≡ undivided table.now.ticks table.now.duties }
{
    let t = table.reading().block_length;
    let duties = table.duties();
    lowest(0, duties, |d| table.duty(d).period % t != 0) < duties
}

// 12. The lowest duty with a slice that is not whole, or how many duties there are.
pub fn bad_slice(table: &TableBytes) -> usize
    ensures { result ≡ bad_slice table.now.ticks table.now.duties }
{
    let t = table.reading().block_length;
    lowest(0, table.duties(), |d| !is_whole(t, table.duty(d)))
}

// 17. The lowest duty whose runs do not add up to its slice, by the units of each duty, or how many duties there are.
pub fn bad_sum(table: &TableBytes, units: &[u32; MOST_DUTIES]) -> usize
    requires { units.now ≡ units_in table.now }
    ensures { result ≡ bad_sum table.now }
{
    let t = table.reading().block_length;
    lowest(0, table.duties(), |i| {
        units[i] != share_of(t, table.duty(i)).units
    })
}
