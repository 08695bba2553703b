// The bytes of SA1's table: the head, the duties, the runs and the end.
// `as` stands where std has no `From` (32 bits to usize, usize to u64), or where it is proved that nothing is lost (d).
#![tactic(auto)]

ghost use Rattle.std.specs.Prelude.{◌≡◌, ◌+◌, ◌*◌, ◌≤◌, length};
ghost use Rattle.laws.specs.Lists.{over};
ghost use Rattle.paper.specs.Sa1.{slices, sa1};
ghost use Rattle.paper.specs.Limits.{small, run_length, table_length};
ghost use Rattle.paper.specs.Bytes.{bytes_of};
ghost use Rattle.sa1_runs.specs.Laying.{laid_at, laid_from, runs_at, corner};
ghost use Rattle.sa1_table.specs.RunBytes.{runs_bytes, records_bytes, records_length};

use paper::limits::{DUTY_LENGTH, HEAD_LENGTH, RUN_LENGTH};
use record_write::{put_duty, put_end, put_head, put_run};
use sa1_measure::Laying;
use sa1_runs::{Place, Slice};
use slices::share_of;

// Writes the runs of duty i, whose slice this is, each where the last one stopped, and answers how many bytes they have.
#[tactic(auto, unfolding(sa1_runs::specs::Laying::runs_at))]
fn put_duty_runs(out: &mut [u8], slice: &Slice, i: u32) -> usize
    requires { run_length small * runs_at slice.now.ticks slice.now.units slice.now.from.unit ≤ length out.old }
    ensures { (out.new
        ≡ over (runs_bytes (laid_at slice.now.ticks slice.now.units i slice.now.from)) out.old)
        × (result ≡ run_length small * runs_at slice.now.ticks slice.now.units slice.now.from.unit) }
{
    put_run(out, slice.first_run(i));
    if slice.runs() == 1 {
        return RUN_LENGTH;
    }
    put_run(&mut out[RUN_LENGTH..], slice.second_run(i));
    2 * RUN_LENGTH
}

// Writes the duties over the front of the lent rest and SA1's runs behind them, a duty's record and its runs by turns, each where the last
// of its kind stopped. Answers how many bytes they have.
fn put_records(out: &mut [u8], laying: &Laying) -> usize
    requires { records_length laying.now.ticks laying.now.duties ≤ length out.old }
    ensures { (out.new ≡ over (records_bytes laying.now.ticks laying.now.duties) out.old)
        × (result ≡ records_length laying.now.ticks laying.now.duties) }
{
    let ticks = laying.ticks();
    let count = laying.duty_count();
    let mut at = DUTY_LENGTH * count;
    let mut place = Place::CORNER;
    for i in 0..count {
        let x = laying.duty(i);
        let record = DUTY_LENGTH * i;
        put_duty(&mut out[record..], x);
        let slice = Slice::new(ticks, share_of(ticks, x).units, place);
        // `as`, since it is proved that nothing is lost: `u32::try_from` would have an error that cannot come.
        at += put_duty_runs(&mut out[at..], &slice, i as u32);
        place = slice.after();
    }
    at
}

// Writes SA1's table over the front of a buffer that has the room: head, duties, runs, end.
pub fn put_table(out: &mut [u8], laying: &Laying, runs: usize)
    requires { (runs ≡ length (laid_from laying.now.ticks (slices laying.now.ticks laying.now.duties) 0 corner))
        × (runs ≤ 2 * length laying.now.duties) × (table_length small (length laying.now.duties) runs ≤ length out.old) }
    ensures { out.new ≡ over (bytes_of (sa1 laying.now.ticks laying.now.engines laying.now.duties)) out.old }
{
    // `as` here too.
    put_head(
        out,
        laying.ticks(),
        laying.engines(),
        laying.duty_count() as u32,
    );
    let end = HEAD_LENGTH + put_records(&mut out[HEAD_LENGTH..], laying);
    put_end(&mut out[end..], runs as u32);
}
