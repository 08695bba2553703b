// SA1 by its numbers alone: the row and the unit where each duty starts, a duty's one run or the two of a split, and whether all of it fits
// the engines and a buffer.
#![tactic(auto)]

ghost use Rattle.std.specs.Prelude.{◌≡◌, ◌+◌, ◌*◌, ◌≤◌, ◌<◌};
ghost use Rattle.paper.specs.Outcome.{outcome_of};
ghost use Rattle.paper.specs.Limits.{small, most_engines, most_duties, most_runs, most_ticks, table_length};
ghost use Rattle.sa1_runs.specs.Laying.{cut, place_after, runs_at, first_run, second_run, units_to};
ghost use Rattle.sa1_runs.specs.Fitting.{fitted_by};

use paper::limits::{DUTY_LENGTH, END_LENGTH, HEAD_LENGTH, RUN_LENGTH};
use paper::{Refusal, Row, Run};
use std::marker::Model;

// The row and the unit where the next duty starts.
#[derive(Clone, Copy, Debug, PartialEq, Eq)]
pub struct Place {
    pub row: Row,
    pub unit: u32,
}

impl Place {
    // Unit 0 of row 0, where SA1 begins.
    pub const CORNER: Place = Place {
        row: Row(0),
        unit: 0,
    };
}

// A duty's slice of so many units, at most those of a row, from a place on, where a row has `ticks` units.
#[derive(Drop)]
pub struct Slice {
    ticks: u32,
    units: u32,
    from: Place,
}

impl Model for Slice {
    ghost use Rattle.std.specs.Prelude.{◌≤◌, ◌<◌};
    ghost use Rattle.paper.specs.Limits.{most_duties, most_ticks};
    ghost use Rattle.sa1_runs.specs.Laying.{Cut, cut};

    ghost Value = { Cut };

    ghost view = { λ a. cut a.ticks a.units a.from };

    ghost invariant = { λ a. (a.from.unit < a.ticks) × (a.units ≤ a.ticks) × (a.ticks ≤ most_ticks) × (a.from.row.0 ≤ most_duties) };
}

impl Slice {
    // So many units from a place on.
    pub fn new(ticks: u32, units: u32, from: Place) -> Slice
        requires { (from.unit < ticks) × (units ≤ ticks) × (ticks ≤ most_ticks) × (from.row.0 ≤ most_duties) }
        ensures { result ≡ cut ticks units from }
    {
        Slice { ticks, units, from }
    }

    // The place after its units: at an exact fit and after a split it is on the next row.
    #[tactic(auto, unfolding(paper::specs::Sa1::row_after, paper::specs::Sa1::unit_after))]
    pub fn after(&self) -> Place
        ensures value { result ≡ place_after self.now.ticks self.now.units self.now.from }
        ensures inside { (result.unit < self.now.ticks) × (result.row.0 ≤ self.now.from.row.0 + 1) }
    {
        let row = self.from.row.0;
        let t = self.ticks;
        let end = self.from.unit + self.units;
        if end < t {
            return Place {
                row: Row(row),
                unit: end,
            };
        }
        Place {
            row: Row(row + 1),
            unit: end - t,
        }
    }

    // How many runs it makes: one, or two where its units go past the end of the row.
    #[tactic(auto, unfolding(crate::specs::Laying::runs_at))]
    pub fn runs(&self) -> usize
        ensures { (result ≡ runs_at self.now.ticks self.now.units self.now.from.unit) × (result ≤ 2) }
    {
        if self.from.unit + self.units <= self.ticks {
            1
        } else {
            2
        }
    }

    // Its first run, where it is duty i's: all of it, or what the row has left.
    pub fn first_run(&self, i: u32) -> Run
        ensures { result ≡ first_run self.now.ticks self.now.units i self.now.from }
    {
        let unit = self.from.unit;
        Run {
            row: self.from.row,
            duty: i,
            first: unit,
            length: self.units.min(self.ticks - unit),
        }
    }

    // The second run of a split duty: it starts at unit 0 of the next row and has what is left.
    pub fn second_run(&self, i: u32) -> Run
        requires { self.now.ticks < self.now.from.unit + self.now.units }
        ensures { result ≡ second_run self.now.ticks self.now.units i self.now.from }
    {
        let from = self.from;
        let next = from.row.0 + 1;
        let rest = from.unit + self.units - self.ticks;
        Run {
            row: Row(next),
            duty: i,
            first: 0,
            length: rest,
        }
    }
}

// What slices come to when they are laid one after the other: how many runs they make, and the place after the last of them.
#[derive(Clone, Copy, Debug, PartialEq, Eq)]
pub struct Layout {
    pub runs: usize,
    pub end: Place,
}

// Refusals 7 and 8, of the duties' slices as they are laid: more units than the engines have, and a buffer with less room than the table
// needs. Else the table's length in bytes.
pub fn fit_table(
    t: u32,
    engines: u32,
    duties: usize,
    laid: Layout,
    room: usize,
) -> Result<usize, Refusal>
    requires t_le_most_ticks { (t ≤ most_ticks) × (engines ≤ most_engines) × (laid.end.unit < t) × (laid.end.row.0 ≤ most_duties) }
    requires duties_le_most_duties { (duties ≤ most_duties) × (laid.runs ≤ most_runs) }
    ensures { outcome_of result ≡ fitted_by (engines * t) (units_to t laid.end) (table_length small duties laid.runs) room }
{
    let Layout { runs, end } = laid;
    if engines * t < end.row.0 * t + end.unit {
        return Err(Refusal::Overload);
    }
    let needed = HEAD_LENGTH + DUTY_LENGTH * duties + RUN_LENGTH * runs + END_LENGTH;
    if room < needed {
        return Err(Refusal::Room(needed));
    }
    Ok(needed)
}
