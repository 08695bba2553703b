// Who holds a unit of a row, read off a table's bytes in good form.
#![tactic(auto)]

ghost use Rattle.std.specs.Prelude.{◌≡◌, length};
ghost use Rattle.laws.specs.Search.{first};
ghost use Rattle.paper.specs.Words.{covers, run_at, held_in};

use paper::{Held, Row};
use record_read::{TableBytes, run_covers};

// The run that holds a unit of a row: the first that does, or the number of runs where the unit is idle.
// A `loop` that yields the index by `break`, not `search::lowest`: document 01 names this form for it (a; docs/DECISIONS.md, the forms).
pub fn find_run(table: &TableBytes, row: Row, unit: u32) -> usize
    ensures { result ≡ first (λ k. covers (run_at table.now.runs k) row unit) (length table.now.runs) }
{
    let idle = table.runs();
    let mut k = 0;
    loop {
        if idle <= k {
            break idle;
        }
        if run_covers(table.run(k), row, unit) {
            break k;
        }
        k += 1;
    }
}

// What holds a unit of a row.
pub fn held(table: &TableBytes, row: Row, unit: u32) -> Held
    ensures { result ≡ held_in table.now.runs row unit }
{
    let k = find_run(table, row, unit);
    if k < table.runs() {
        Some(table.run(k).duty)
    } else {
        None
    }
}
