// Rule 16: the lowest run of a table that shares a unit with an earlier run of its duty on another row, by the duty's earlier runs kept in
// sorted lists.
// `as` stands where std has no `From` (32 bits to usize, usize to u64), or where it is proved that nothing is lost (d).
#![tactic(auto)]

ghost use Rattle.std.specs.Prelude.{◌≡◌, ◌≤◌, length};
ghost use Rattle.paper.specs.Rules.{overlaps, twice, lowest};

use judge_lists::Lists;
use record_read::TableBytes;

// 16. The lowest run that shares a unit with an earlier run of its duty on another row, or how many runs there are. No two runs of a row
// share a unit. A loop and no `search::lowest` (d): each run that passes goes into the lists before the next is looked at.
pub fn lowest_twice(table: &TableBytes) -> usize
    requires { length table.now.runs ≤ lowest overlaps table.now.runs }
    ensures { result ≡ lowest twice table.now.runs }
{
    let runs = table.runs();
    let mut lists = Lists::new();
    for k in 0..runs {
        let duty = table.run(k).duty as usize;
        let spot = lists.spot_of(table, k);
        if lists.is_twice(table, spot, k) {
            return k;
        }
        lists.insert(spot, duty, k);
    }
    runs
}
