// Arithmetic of a plan: a number's and a duty's ranges, and why a duty is out of range; the greatest common divisor, and the block length
// that is meant; a duty's share.
// `as` stands where std has no `From` (32 bits to usize, usize to u64), or where it is proved that nothing is lost (d).
#![tactic(auto)]

ghost use Rattle.std.specs.Prelude.{◌≡◌, List, ◌*◌, ◌/◌, ◌%◌, ◌≤◌, ◌<◌, eqb};
ghost use Rattle.laws.specs.Divisor.{gcd, gcd_of};
ghost use Rattle.laws.specs.Choice.{pick};
ghost use Rattle.paper.specs.declared.Duty.{Duty};
ghost use Rattle.paper.specs.Words.{slice, whole};
ghost use Rattle.paper.specs.Outcome.{refused, refused_as};
ghost use Rattle.paper.specs.Limits.{most_ticks};
ghost use Rattle.paper.specs.Bytes.{within, duty_ranged};

use paper::limits::MOST_TICKS;
use paper::{Duty, Refusal};

// Whether a number is from low to high. No `RangeInclusive::contains` (d): this is the definitions' `within`, by its own words.
pub fn is_within(low: usize, high: usize, v: usize) -> bool
    ensures { result ≡ within low high v }
{
    (low <= v) & (v <= high)
}

// Whether a period is in range.
pub fn period_in_range(period: u32) -> bool
    ensures { result ≡ within 1 most_ticks period }
{
    (1 <= period) & (period <= MOST_TICKS)
}

// Whether a duty is in range: its period, and a service from 1 to it.
pub fn duty_in_range(x: Duty) -> bool
    ensures { result ≡ duty_ranged x }
{
    ((1 <= x.period) & (x.period <= MOST_TICKS)) & ((1 <= x.service) & (x.service <= x.period))
}

// Why duty d is out of range: 5 where its period is in range, and so its service is not; else 4.
pub fn range_fault(period: u32, d: usize) -> Refusal
    ensures { refused_as {A = List Duty} result ≡ pick (within 1 most_ticks period) (refused 5 d) (refused 4 d) }
{
    if period_in_range(period) {
        return Refusal::Service(d);
    }
    Refusal::Period(d)
}

// The greatest common divisor, by Euclid's steps.
#[tactic(auto, using(crate::proofs::Steps::divisor_steps))]
pub fn gcd_of(a: u32, b: u32) -> u32
    ensures { result ≡ gcd a b }
{
    let mut x = a;
    let mut y = b;
    while y != 0 {
        let rest = x % y;
        x = y;
        y = rest;
    }
    x
}

// The greatest block length for a list of periods: their greatest common divisor.
#[tactic(auto, using(crate::proofs::Steps::divisor_steps))]
pub fn gcd_of_all(periods: &[u32]) -> u32
    ensures { result ≡ gcd_of periods.now }
{
    let mut g: u32 = 0;
    for period in periods {
        g = gcd_of(g, *period);
    }
    g
}

// The block length that a wish means, where the greatest is known: 0 means that one. No Option (a): C callers say 0.
pub fn length_meant(wish: u32, greatest: u32) -> u32
    ensures { result ≡ pick (eqb wish 0) greatest wish }
{
    if wish == 0 { greatest } else { wish }
}

// Whether a duty's slice T·C/D is whole. T·C has 40 bits at the most.
#[tactic(auto, unfolding(paper::specs::Words::whole))]
pub fn is_whole(t: u32, x: Duty) -> bool
    requires { (t ≤ most_ticks) × (x.service ≤ most_ticks) × (0 < x.period) }
    ensures { result ≡ whole t x }
{
    u64::from(t) * u64::from(x.service) % u64::from(x.period) == 0
}

// A duty's share of a block, T·C/D: whole units, and the part of a unit, in D-ths. Its slice is whole where there is no such part.
#[derive(Clone, Copy, Debug, PartialEq, Eq)]
pub struct Share {
    pub units: u32,
    pub rest: u32,
}

// The share of a duty. T·C has 40 bits at the most, and the whole units are at most T, since C is at most D.
pub fn share_of(t: u32, x: Duty) -> Share
    requires { (t ≤ most_ticks) × (x.service ≤ most_ticks) × (x.service ≤ x.period) × (0 < x.period) }
    ensures { (result.units ≡ slice t x) × (result.rest ≡ t * x.service % x.period) × (result.units ≤ t)
        × (whole t x ≡ eqb result.rest 0) }
{
    let all = u64::from(t) * u64::from(x.service);
    let period = u64::from(x.period);
    // `as`, since it is proved that nothing is lost: `u32::try_from` would have an error that cannot come.
    let units = (all / period) as u32;
    let rest = (all % period) as u32;
    Share { units, rest }
}
