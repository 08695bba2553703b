// The records of a table as they are written: each is one byte of kind and a body, and is laid over the front of a lent
// rest, field by field. Numbers are little-endian.
#![tactic(auto)]

ghost use Rattle.std.specs.Prelude.{◌≡◌, ◌≤◌, length};
ghost use Rattle.laws.specs.Digits.{digits};
ghost use Rattle.laws.specs.Lists.{over};
ghost use Rattle.paper.specs.Limits.{small, head_length, duty_length, run_length, end_length};
ghost use Rattle.paper.specs.Bytes.{duty_bytes, run_bytes, end_bytes};
ghost use Rattle.record_write.specs.Head.{head_of};

use paper::limits::{DUTY_FIELD, FIRST_FIELD, LENGTH_FIELD};
use paper::{Duty, Run};
use record_read::Kind;

// Stores bytes over the front of a lent rest.
#[tactic(auto, unfolding(laws::specs::Lists::over))]
pub fn put_bytes(out: &mut [u8], bytes: &[u8])
    requires { length bytes.now ≤ length out.old }
    ensures { out.new ≡ over bytes.now out.old }
{
    out[..bytes.len()].copy_from_slice(bytes);
}

// A field: the N low bytes of a number, over the front of a lent rest.
fn put_field<const N: usize>(out: &mut [u8], v: u32)
    requires short { N ≤ 4 }
    requires room { N ≤ length out.old }
    ensures { out.new ≡ over (digits N v) out.old }
{
    put_bytes(out, &v.to_le_bytes()[..N]);
}

// The head: block length, engines, duties.
#[tactic(auto, unfolding(laws::specs::Lists::over, laws::specs::Digits::digits))]
pub fn put_head(out: &mut [u8], t: u32, engines: u32, duties: u32)
    requires { head_length small ≤ length out.old }
    ensures { out.new ≡ over (head_of t engines duties) out.old }
{
    put_field::<1>(out, u32::from(Kind::Head.byte()));
    put_field::<4>(&mut out[1..], t);
    put_field::<1>(&mut out[5..], engines);
    put_field::<DUTY_FIELD>(&mut out[6..], duties);
}

// A duty: service and period.
#[tactic(auto, unfolding(laws::specs::Lists::over, laws::specs::Digits::digits, paper::specs::Bytes::duty_bytes))]
pub fn put_duty(out: &mut [u8], x: Duty)
    requires { duty_length ≤ length out.old }
    ensures { out.new ≡ over (duty_bytes x) out.old }
{
    put_field::<1>(out, u32::from(Kind::Duty.byte()));
    put_field::<4>(&mut out[1..], x.service);
    put_field::<4>(&mut out[5..], x.period);
}

// A run: row, duty, first unit, length.
#[tactic(auto, unfolding(laws::specs::Lists::over, laws::specs::Digits::digits, paper::specs::Bytes::run_bytes))]
pub fn put_run(out: &mut [u8], x: Run)
    requires { run_length small ≤ length out.old }
    ensures { out.new ≡ over (run_bytes small x) out.old }
{
    put_field::<1>(out, u32::from(Kind::Run.byte()));
    put_field::<1>(&mut out[1..], x.row.0);
    put_field::<DUTY_FIELD>(&mut out[2..], x.duty);
    put_field::<4>(&mut out[FIRST_FIELD..], x.first);
    put_field::<4>(&mut out[LENGTH_FIELD..], x.length);
}

// The end: the number of runs.
#[tactic(auto, unfolding(laws::specs::Lists::over, laws::specs::Digits::digits, paper::specs::Bytes::end_bytes))]
pub fn put_end(out: &mut [u8], runs: u32)
    requires { end_length ≤ length out.old }
    ensures { out.new ≡ over (end_bytes runs) out.old }
{
    put_field::<1>(out, u32::from(Kind::End.byte()));
    put_field::<2>(&mut out[1..], runs);
}
