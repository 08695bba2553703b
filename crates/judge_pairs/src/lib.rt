// What rules 13 to 15 look at in two runs alone, a run and its forerunner: whether the run stands wrong to it, in a way that a rule names.
#![tactic(auto)]

ghost use Rattle.std.specs.Prelude.{◌≡◌, ◌≤◌};
ghost use Rattle.paper.specs.Words.{stop};
ghost use Rattle.paper.specs.Limits.{most_ticks};
ghost use Rattle.paper.specs.Rules.{before, meet, overlaps, joins};
ghost use Rattle.table_laws.proofs.Forerunners.{wrong};

use paper::Run;

// 13. Whether x comes before y by row and first unit.
#[tactic(auto, unfolding(paper::specs::Rules::before))]
pub fn is_before(x: Run, y: Run) -> bool
    ensures { result ≡ before x y }
{
    (x.row.0, x.first) < (y.row.0, y.first)
}

// Whether two runs share a unit: each starts before the other stops.
#[tactic(auto, unfolding(paper::specs::Rules::meet))]
fn do_meet(x: Run, y: Run) -> bool
    requires { (stop x ≤ most_ticks) × (stop y ≤ most_ticks) }
    ensures { result ≡ meet x y }
{
    (x.first < y.first + y.length) & (y.first < x.first + x.length)
}

// 14. Whether two runs share a unit of their row.
pub fn do_overlap(x: Run, y: Run) -> bool
    requires { (stop x ≤ most_ticks) × (stop y ≤ most_ticks) }
    ensures { result ≡ overlaps x y }
{
    (x.row == y.row) & do_meet(x, y)
}

// 15. Whether the run y goes on where x stops, on its row and with its duty.
#[tactic(auto, unfolding(paper::specs::Rules::joins))]
pub fn does_join(x: Run, y: Run) -> bool
    requires { stop x ≤ most_ticks }
    ensures { result ≡ joins x y }
{
    (x.row == y.row) & (x.duty == y.duty) & (x.first + x.length == y.first)
}

// Whether the run y stands wrong to its forerunner x by any of the three rules, in one look: on x's row it starts before x stops, or, with
// x's duty, where x stops; or its row is lower.
pub fn is_wrong(x: Run, y: Run) -> bool
    requires { (stop x ≤ most_ticks) × (1 ≤ x.length) }
    ensures { result ≡ wrong x y }
{
    let stop = x.first + x.length;
    if x.row == y.row {
        (y.first < stop) | ((x.duty == y.duty) & (stop == y.first))
    } else {
        y.row.0 < x.row.0
    }
}
