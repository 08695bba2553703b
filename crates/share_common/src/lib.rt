// Whose blocks are shared out, as one value; their number, up to the periods' least common multiple, with refusals 22 and 7.
#![tactic(auto)]

ghost use Rattle.std.specs.Prelude.{◌≡◌, ◌*◌, ◌^◌, ◌≤◌, ◌<◌, ltb, SomeIff};
ghost use Rattle.laws.specs.Divisor.{lcm, lcm_of};
ghost use Rattle.paper.specs.Duties.{asks, asked_in, periods_of};
ghost use Rattle.paper.specs.Limits.{most_engines, most_ticks, most_share_blocks};
ghost use Rattle.paper.specs.Outcome.{outcome_of};
ghost use Rattle.paper.specs.Sa2.{sharing, duty_count, duty_of};
ghost use Rattle.paper.specs.Shares.{blocks, sharable, shared};
ghost use Rattle.paper.specs.Statements.{DutyRanged};
ghost use Rattle.paper.specs.Wanted.{wanted};
ghost use Rattle.share_common.specs.Common.{Shareable, Counted};

use duty_lists::{Duties, take_duties};
use paper::limits::MOST_SHARE_BLOCKS;
use paper::{Duty, Refusal};
use slices::gcd_of;
use std::marker::Model;

// The least common multiple of two numbers; none where it is too much for 32 bits.
fn multiple_of(a: u32, b: u32) -> Option<u32>
    requires { 0 < a }
    ensures { SomeIff result (lcm a b < 2 ^ 32) (lcm a b) }
{
    (a / gcd_of(a, b)).checked_mul(b)
}

// The ticks that a duty asks for in so many, a multiple of its period: at most these.
fn asked_of(x: Duty, ticks: u32) -> u64
    requires { (0 < x.period) × (x.service ≤ x.period) }
    ensures { (result ≡ asks ticks x) × (result ≤ ticks) }
{
    u64::from(x.service) * u64::from(ticks / x.period)
}

// The least common multiple of the duties' periods; none where it is more blocks of so many ticks than a plan may have.
fn common_of(ticks: u32, duties: &Duties) -> Option<u32>
    requires { (1 ≤ ticks) × (ticks ≤ most_ticks) }
    ensures { SomeIff result (lcm_of (periods_of duties.now) ≤ most_share_blocks * ticks) (lcm_of (periods_of duties.now)) }
{
    let most = MOST_SHARE_BLOCKS * ticks;
    let mut common = 1;
    for i in 0..duties.len() {
        common = multiple_of(common, duties.duty(i).period)?;
        if most < common {
            return None;
        }
    }
    Some(common)
}

// Whether the duties need more than the engines have, over so many ticks, a common multiple of the periods.
fn is_overload(engines: u32, duties: &Duties, ticks: u32) -> bool
    requires { engines ≤ most_engines }
    ensures { result ≡ ltb (engines * ticks) (asked_in ticks duties.now) }
{
    let mut asked = 0;
    for i in 0..duties.len() {
        asked += asked_of(duties.duty(i), ticks);
    }
    u64::from(engines) * u64::from(ticks) < asked
}

// Whose blocks are shared out: the block length, which divides every period, the engines, the blocks up to the periods' least common
// multiple, and the duties that were taken. They do not need more than the engines have.
#[derive(Drop)]
pub struct Sharing<'a> {
    ticks: u32,
    engines: u32,
    blocks: u32,
    duties: Duties<'a>,
}

impl<'a> Model for Sharing<'a> {
    ghost use Rattle.paper.specs.Sa2.{Sharing, sharing};
    ghost use Rattle.share_common.specs.Common.{Counted};

    ghost Value = { Sharing };

    ghost view = { λ a. sharing a.ticks a.engines a.duties };

    ghost invariant = { λ a. Counted (sharing a.ticks a.engines a.duties) a.blocks };
}

impl<'a> Sharing<'a> {
    // Duties that were taken, in blocks whose length divides their periods: 22 where the blocks are too many, then 7 where the duties need
    // more than the engines have.
    pub fn new(ticks: u32, engines: u32, duties: Duties<'a>) -> Result<Sharing<'a>, Refusal>
        requires { Shareable (sharing ticks engines duties) }
        ensures { outcome_of result ≡ sharable (sharing ticks engines duties.entry) }
    {
        let Some(common) = common_of(ticks, &duties) else {
            return Err(Refusal::ManyShareBlocks);
        };
        if is_overload(engines, &duties, common) {
            return Err(Refusal::Overload);
        }
        Ok(Sharing {
            ticks,
            engines,
            blocks: common / ticks,
            duties,
        })
    }

    // The block length.
    pub fn ticks(&self) -> u32
        ensures value { result ≡ self.now.ticks }
        ensures shareable { Shareable self.now }
    {
        self.ticks
    }

    // The engines.
    pub fn engines(&self) -> u32
        ensures value { result ≡ self.now.engines }
        ensures shareable { Shareable self.now }
    {
        self.engines
    }

    // The blocks: there are some, and no more than a plan may have.
    pub fn blocks(&self) -> u32
        ensures value { result ≡ blocks self.now }
        ensures counted { Counted self.now result }
    {
        self.blocks
    }

    // How many duties there are.
    pub fn duty_count(&self) -> usize
        ensures value { result ≡ duty_count self.now }
        ensures shareable { Shareable self.now }
    {
        self.duties.len()
    }

    // Duty i.
    pub fn duty(&self, i: usize) -> Duty
        requires { i < duty_count self.now }
        ensures value { result ≡ duty_of self.now i }
        ensures ranged { DutyRanged result }
    {
        self.duties.duty(i)
    }
}

// Takes the duties of the two lists for blocks of the periods' greatest common divisor: 1 to 5, then 22 and 7.
pub fn take_sharing<'a>(
    engines: u32,
    services: &'a [u32],
    periods: &'a [u32],
) -> Result<Sharing<'a>, Refusal>
    ensures { outcome_of result ≡ shared (wanted engines services.now periods.now) }
{
    let duties = take_duties(engines, services, periods)?;
    let ticks = duties.greatest();
    Sharing::new(ticks, engines, duties)
}
