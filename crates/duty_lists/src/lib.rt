// What stands in the builder's two lists, services and periods: the duties, and tests 1 to 5, after which they are taken.
// `as` stands where std has no `From` (32 bits to usize, usize to u64), or where it is proved that nothing is lost (d).
#![tactic(auto)]

ghost use Rattle.std.specs.Prelude.{◌≡◌, ◌<◌, length};
ghost use Rattle.paper.specs.Duties.{duty_at};
ghost use Rattle.paper.specs.Outcome.{outcome_of};
ghost use Rattle.paper.specs.Statements.{DutyRanged};
ghost use Rattle.paper.specs.Wanted.{wanted, duties_of, bad_range, taken};
ghost use Rattle.paper.specs.Words.{block_length_of};
ghost use Rattle.duty_lists.specs.Listed.{Listed};

use paper::limits::{MOST_DUTIES, MOST_ENGINES};
use paper::{Duty, Refusal};
use search::lowest;
use slices::{duty_in_range, gcd_of_all, is_within, range_fault};
use std::marker::Model;

// Duty i of the two lists, tested or not.
#[tactic(auto, using(plan_laws::proofs::Planned::duty_is))]
pub fn duty_at(services: &[u32], periods: &[u32], i: usize) -> Duty
    requires { (i < length services.now) × (length services.now ≡ length periods.now) }
    ensures { result ≡ duty_at (duties_of services.now periods.now) i }
{
    Duty {
        service: services[i],
        period: periods[i],
    }
}

// Duties lent as two lists of one length, of services and of periods: each in range, and no more than a table has. Contracts see the
// duties.
// Two lists, not one of duties (a): the outside calls and the C interface lend them so.
#[derive(Drop)]
pub struct Duties<'a> {
    services: &'a [u32],
    periods: &'a [u32],
}

impl<'a> Model for Duties<'a> {
    ghost use Rattle.std.specs.Prelude.{◌≡◌, List, length};
    ghost use Rattle.paper.specs.declared.Duty.{Duty};
    ghost use Rattle.paper.specs.Wanted.{duties_of};
    ghost use Rattle.duty_lists.specs.Listed.{Listed};

    ghost Value = { List Duty };

    ghost view = { λ a. duties_of a.services.now a.periods.now };

    ghost invariant = { λ a. (length a.services.now ≡ length a.periods.now) × Listed (duties_of a.services.now a.periods.now) };
}

impl<'a> Duties<'a> {
    // Two lists of one length, of duties in range, no more than a table has.
    pub fn new(services: &'a [u32], periods: &'a [u32]) -> Duties<'a>
        requires { (length services.now ≡ length periods.now) × Listed (duties_of services.now periods.now) }
        ensures { result ≡ duties_of services.now periods.now }
    {
        Duties { services, periods }
    }

    // How many duties there are.
    #[tactic(auto, using(plan_laws::proofs::Planned::length_duties))]
    pub fn len(&self) -> usize
        ensures count { result ≡ length self.now }
        ensures listed { Listed self.now }
    {
        self.services.len()
    }

    // Duty i.
    #[tactic(auto, using(plan_laws::proofs::Planned::length_duties, plan_laws::proofs::Planned::duty_is))]
    pub fn duty(&self, i: usize) -> Duty
        requires { i < length self.now }
        ensures value { result ≡ duty_at self.now i }
        ensures ranged { DutyRanged result }
    {
        // Taken out first, so that what holds of both lists is known where they are asked.
        let services = self.services;
        let periods = self.periods;
        duty_at(services, periods, i)
    }

    // The greatest block length: the periods' greatest common divisor.
    #[tactic(auto, using(plan_laws::proofs::Planned::block_length_is))]
    pub fn greatest(&self) -> u32
        ensures { result ≡ block_length_of self.now }
    {
        gcd_of_all(self.periods)
    }
}

// The first duty whose period or service is out of range, or how many there are.
fn bad_range(services: &[u32], periods: &[u32]) -> usize
    requires { length services.now ≡ length periods.now }
    ensures { result ≡ bad_range (duties_of services.now periods.now) }
{
    lowest(0, services.len(), |i| {
        !duty_in_range(duty_at(services, periods, i))
    })
}

// Takes the duties of the two lists, after tests 1 to 5 in their order.
#[tactic(auto, using(crate::proofs::Testing::tests_told))]
pub fn take_duties<'a>(
    engines: u32,
    services: &'a [u32],
    periods: &'a [u32],
) -> Result<Duties<'a>, Refusal>
    ensures { outcome_of result ≡ taken (wanted engines services.now periods.now) }
{
    // `as`, since std has no `From` from `u32` to `usize`.
    if !is_within(1, MOST_ENGINES, engines as usize) {
        return Err(Refusal::Engines);
    }
    let duties = services.len();
    if duties != periods.len() {
        return Err(Refusal::Lengths);
    }
    if !is_within(1, MOST_DUTIES, duties) {
        return Err(Refusal::Duties);
    }
    let bad = bad_range(services, periods);
    if bad < duties {
        return Err(range_fault(periods[bad], bad));
    }
    Ok(Duties::new(services, periods))
}
