// The records of a table, each by itself, as fault 10 looks at them: all its bytes are there, it is of its kind and holds no field
// out of range.
// `as` stands where std has no `From` (32 bits to usize, usize to u64), or where it is proved that nothing is lost (d).
#![tactic(auto)]

ghost use Rattle.std.specs.Prelude.{◌≡◌, ◌+◌, ◌≤◌, MatchOption, IsTrue, length, false, true, ◌&&◌};
ghost use Rattle.paper.specs.Limits.{most_place, most_ticks, most_engines, most_duties, most_runs, small};
ghost use Rattle.paper.specs.Bytes.{within, stands, ticks_in, engines_in, duties_in, run_ranged, duty_place, run_place};
ghost use Rattle.paper.specs.Bytes.{head_good, duty_good, run_good, end_good};
ghost use Rattle.record_read.specs.Kinds.{kind_byte, kind_length};

use paper::limits::{MOST_DUTIES, MOST_ENGINES};
use paper::{Reading, Run};
use record_read::{Head, Kind, duty_place, read_duty, read_field, read_head, read_run, run_place};
use slices::{duty_in_range, is_within, period_in_range};
use std::marker::Model;

// Whether a record that is not cut short and is of the kind stands at an offset.
#[tactic(auto, unfolding(paper::specs::Bytes::stands))]
fn record_stands(b: &[u8], at: usize, kind: Kind) -> bool
    requires { at ≤ most_place }
    ensures told { result ≡ stands b.now at (kind_byte kind) (kind_length kind) }
    ensures room { IsTrue result → at + kind_length kind ≤ length b.now }
{
    at + kind.length() <= b.len() && b[at] == kind.byte()
}

// Whether a head's fields are in their ranges.
fn head_in_range(head: Head) -> bool
    ensures { result ≡ (within 1 most_ticks head.block_length && within 1 most_engines head.engines
        && within 1 most_duties head.duties) }
{
    period_in_range(head.block_length)
        & is_within(1, MOST_ENGINES, head.engines as usize)
        & is_within(1, MOST_DUTIES, head.duties as usize)
}

// Whether a run's fields are in their ranges, after this head. A first unit and a length may add up to more than 32 bits.
fn run_in_range(x: Run, head: Head) -> bool
    ensures { result ≡ run_ranged head.block_length head.engines head.duties x }
{
    let stop = u64::from(x.first) + u64::from(x.length);
    (x.row.0 < head.engines)
        & (x.duty < head.duties)
        & (1 <= x.length)
        & (stop <= u64::from(head.block_length))
}

// Bytes that begin with a good head, and what it holds. A contract sees the bytes.
#[derive(Drop)]
pub struct Headed<'a> {
    bytes: &'a [u8],
    head: Head,
}

impl<'a> Model for Headed<'a> {
    ghost use Rattle.std.specs.Prelude.{ℕ, List};

    ghost Value = { List ℕ };

    ghost use Rattle.record_tests.specs.GoodHead.{GoodHead};

    ghost view = { λ h. h.bytes.now };

    ghost invariant = { λ h. GoodHead h.bytes.now h.head };
}

impl<'a> Headed<'a> {
    // Bytes whose head is good: block length, engines and duties in their ranges. None where it is not.
    pub fn new(bytes: &'a [u8]) -> Option<Headed<'a>>
        ensures { MatchOption result (head_good small bytes.now ≡ false)
            (λ h. (h ≡ bytes.now) × (head_good small bytes.now ≡ true)) }
    {
        if !record_stands(bytes, 0, Kind::Head) {
            return None;
        }
        let head = read_head(bytes);
        if head_in_range(head) {
            Some(Headed { bytes, head })
        } else {
            None
        }
    }

    // How many duties the head tells.
    pub fn duties(&self) -> usize
        ensures told { result ≡ duties_in small self.now }
        ensures few { result ≤ most_duties }
    {
        self.head.duties as usize
    }

    // What is read of a table with this head and so many runs.
    pub fn reading(&self, runs: usize) -> Reading
        requires { runs ≤ most_runs }
        ensures { (result.block_length ≡ ticks_in self.now) × (result.engines ≡ engines_in self.now)
            × (result.duties ≡ duties_in small self.now) × (result.runs ≡ runs) }
    {
        Reading {
            block_length: self.head.block_length,
            engines: self.head.engines,
            duties: self.head.duties,
            // `as`, since no number is lost (proved): `try_from` would have an error to answer for that never comes.
            runs: runs as u32,
        }
    }

    // Whether a good duty record stands in the place of duty d: a period in range, and a service from 1 to its period.
    pub fn duty_good(&self, d: usize) -> bool
        requires { d ≤ most_duties }
        ensures { result ≡ duty_good self.now (duty_place small d) }
    {
        let at = duty_place(d);
        record_stands(self.bytes, at, Kind::Duty) && duty_in_range(read_duty(self.bytes, at))
    }

    // Where the record of run k stands, and after the last run the end record.
    pub fn run_place(&self, k: usize) -> usize
        requires { k ≤ most_runs }
        ensures { result ≡ run_place small (duties_in small self.now) k }
    {
        run_place(self.duties(), k)
    }

    // Whether a good run record stands in the place of run k.
    pub fn run_good(&self, k: usize) -> bool
        requires { k ≤ most_runs }
        ensures { result ≡ run_good small self.now (run_place small (duties_in small self.now) k) }
    {
        let at = self.run_place(k);
        record_stands(self.bytes, at, Kind::Run)
            && run_in_range(read_run(self.bytes, at), self.head)
    }

    // Whether the end record stands after k runs, and tells their number.
    pub fn end_good(&self, k: usize) -> bool
        requires { k ≤ most_runs }
        ensures { result ≡ end_good self.now (run_place small (duties_in small self.now) k) k }
    {
        let at = self.run_place(k);
        record_stands(self.bytes, at, Kind::End)
            && read_field::<2>(self.bytes, at + 1) as usize == k
    }
}
