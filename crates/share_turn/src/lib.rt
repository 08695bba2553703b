// SA2 by numbers alone: step 1 for a block, steps 2 and 4 for one duty's turn in it. Block after block there is no division.
#![tactic(auto)]

ghost use Rattle.std.specs.Prelude.{◌≡◌, ◌+◌, ◌-◌, ◌*◌, ◌/◌, ◌%◌, ◌≤◌, ◌<◌, leb, eqb, SomeIff};
ghost use Rattle.laws.specs.Choice.{one_if};
ghost use Rattle.paper.specs.Limits.{most_engines, most_duties, most_ticks};
ghost use Rattle.share_turn.specs.Taking.{wants_by, chosen_by, next_by};

// An amount of units, for a duty of period D: whole ones, and a part of one in D-ths. A duty's share of a block is one, and its need, whose
// whole units are raised by 1. (d: `slices::Share` is T·C/D alone, and no need.)
#[derive(Clone, Copy, Debug, PartialEq, Eq)]
pub struct Amount {
    pub whole: u32,
    pub part: u32,
}

// Step 1: the free units of a block, by the sum of the needs' whole units; none where these are more than the engines have. Each of them
// is raised by 1, so the duties are counted in.
pub fn room_in_block(t: u32, engines: u32, duties: u32, total: u32) -> Option<u32>
    requires { (t ≤ most_ticks) × (engines ≤ most_engines) × (duties ≤ most_duties) }
    ensures { SomeIff result (total ≤ engines * t + duties) (engines * t + duties - total) }
{
    (engines * t + duties).checked_sub(total)
}

// Step 2: whether a duty wants one of the free units, by its need.
pub fn wants_more(t: u32, need: Amount) -> bool
    requires { t ≤ most_ticks }
    ensures { result ≡ wants_by t need.whole need.part }
{
    (0 < need.part) & (need.whole < t + 1)
}

// And whether it is chosen: it wants one, and its place among the duties is before the cut.
pub fn is_chosen(t: u32, need: Amount, place: u32, cut: u32) -> bool
    requires { t ≤ most_ticks }
    ensures { result ≡ chosen_by t need.whole need.part place cut }
{
    wants_more(t, need) & (place < cut)
}

// What a duty's turn comes to: the units that it gets, its need before the next block, and whether it would get -1 units. No Option of the
// units (d): where it would, 0 is written for it all the same, so that the loop has no branch.
#[derive(Clone, Copy, Debug, PartialEq, Eq)]
pub struct Turn {
    pub units: u32,
    pub need: Amount,
    pub lacking: bool,
}

// The part of a unit that parts add up to: without the unit, where they make one.
fn part_of(period: u32, sum: u32, full: bool) -> u32
    requires { (sum < period + period) × (full ≡ leb period sum) }
    ensures { result ≡ sum % period }
{
    if full { sum - period } else { sum }
}

// A duty's turn, by its share and its need, and by whether it is chosen. There is no branch and nothing is handed on from duty to duty, so
// that a loop over the duties takes several at a time.
pub fn take_turn(period: u32, share: Amount, need: Amount, chosen: bool) -> Turn
    requires { (period ≤ most_ticks) × (share.whole ≤ most_ticks) × (share.part < period) × (need.whole ≤ most_ticks + 1)
        × (need.part < period) }
    ensures units_value { result.units ≡ need.whole + one_if chosen - 1 }
    ensures whole_value { (result.need.whole ≡ next_by period share.whole share.part need.part chosen / period)
        × (result.need.whole ≤ most_ticks + 2) }
    ensures part_value { result.need.part ≡ next_by period share.whole share.part need.part chosen % period }
    ensures lacking_value { result.lacking ≡ eqb (need.whole + one_if chosen) 0 }
{
    let took = u32::from(chosen);
    let raised = need.whole + took;
    let sum = share.part + need.part;
    let full = period <= sum;
    let whole = share.whole + u32::from(full) + 1 - took;
    let part = part_of(period, sum, full);
    Turn {
        units: raised.saturating_sub(1),
        need: Amount { whole, part },
        lacking: raised == 0,
    }
}
