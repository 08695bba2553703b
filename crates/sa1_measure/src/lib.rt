// What SA1 lays, as one value; and its slices measured: whether they are whole, how many runs they make, and where they end, which tells
// whether they fit. Nothing is written.
#![tactic(auto)]

ghost use Rattle.std.specs.Prelude.{◌≡◌, ◌≤◌, ◌<◌, length};
ghost use Rattle.paper.specs.Duties.{duty_at};
ghost use Rattle.paper.specs.Limits.{most_ticks};
ghost use Rattle.paper.specs.Statements.{DutyRanged};
ghost use Rattle.duty_lists.specs.Listed.{Listed};
ghost use Rattle.sa1_measure.specs.Layings.{laying, Layable};
ghost use Rattle.sa1_measure.specs.Layouts.{Measured};

use duty_lists::Duties;
use paper::{Duty, Refusal};
use sa1_runs::{Layout, Place, Slice};
use slices::share_of;
use std::marker::Model;

// What SA1 lays: duties in blocks of so many units, on so many engines.
#[derive(Drop)]
pub struct Laying<'a> {
    ticks: u32,
    engines: u32,
    duties: Duties<'a>,
}

impl<'a> Model for Laying<'a> {
    ghost use Rattle.sa1_measure.specs.Layings.{Laid, laying, Layable};

    ghost Value = { Laid };

    ghost view = { λ a. laying a.ticks a.engines a.duties };

    ghost invariant = { λ a. Layable (laying a.ticks a.engines a.duties) };
}

impl<'a> Laying<'a> {
    // Duties, in blocks of any length in range.
    pub fn new(ticks: u32, engines: u32, duties: Duties<'a>) -> Laying<'a>
        requires { (1 ≤ ticks) × (ticks ≤ most_ticks) }
        ensures { result ≡ laying ticks engines duties.entry }
    {
        Laying {
            ticks,
            engines,
            duties,
        }
    }

    // The block length.
    pub fn ticks(&self) -> u32
        ensures value { result ≡ self.now.ticks }
        ensures layable { Layable self.now }
    {
        self.ticks
    }

    // The engines.
    pub fn engines(&self) -> u32
        ensures { result ≡ self.now.engines }
    {
        self.engines
    }

    // How many duties there are.
    pub fn duty_count(&self) -> usize
        ensures value { result ≡ length self.now.duties }
        ensures listed { Listed self.now.duties }
    {
        self.duties.len()
    }

    // Duty i.
    pub fn duty(&self, i: usize) -> Duty
        requires { i < length self.now.duties }
        ensures value { result ≡ duty_at self.now.duties i }
        ensures ranged { DutyRanged result }
    {
        self.duties.duty(i)
    }

    // Lays the slices of all duties, from unit 0 of row 0 on, and writes nothing; 6 at the first that is not whole.
    pub fn measure(&self) -> Result<Layout, Refusal>
        ensures { Measured self.now.ticks self.now.duties result }
    {
        let ticks = self.ticks();
        let mut runs = 0;
        let mut place = Place::CORNER;
        for i in 0..self.duty_count() {
            let share = share_of(ticks, self.duty(i));
            if 0 < share.rest {
                return Err(Refusal::PartSlice(i));
            }
            let slice = Slice::new(ticks, share.units, place);
            runs += slice.runs();
            place = slice.after();
        }
        Ok(Layout { runs, end: place })
    }
}
