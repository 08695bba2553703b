// The builder: from services and periods to a table's bytes, by SA1. Tests 1 to 5 come first, then the block length, with 24; what follows,
// the refusals 6 to 8 and the table written, takes any block length.
#![tactic(auto)]

ghost use Rattle.std.specs.Prelude.{◌≤◌, length};
ghost use Rattle.paper.specs.Outcome.{Writes};
ghost use Rattle.paper.specs.Limits.{most_engines};
ghost use Rattle.paper.specs.Wanted.{wanted};
ghost use Rattle.builder.specs.BuildAt.{build_at};
ghost use Rattle.paper.specs.Builder.{build as build_from};

use duty_lists::take_duties;
use paper::Refusal;
use sa1_measure::Laying;
use sa1_runs::fit_table;
use sa1_table::put_table;
use slices::length_meant;

// The builder from refusal 6 on, for any block length in range. The answer is the table's length in bytes.
fn build_fitting(laying: &Laying, out: &mut [u8]) -> Result<usize, Refusal>
    requires { laying.now.engines ≤ most_engines }
    ensures { Writes (build_at laying.now.ticks laying.now.engines laying.now.duties (length out.old)) result
        out.old out.new }
{
    let laid = laying.measure()?;
    let needed = fit_table(
        laying.ticks(),
        laying.engines(),
        laying.duty_count(),
        laid,
        out.len(),
    )?;
    put_table(out, laying, laid.runs);
    Ok(needed)
}

// Builds a table from services and periods, in blocks of the wanted length; 0 means the periods' greatest common divisor. The answer is the
// table's length in bytes; bytes past it stay. A refusal writes nothing. Past tests 1 to 5 a length divides every period exactly where it
// divides their greatest common divisor; where it does not, that is refusal 24.
pub fn build(
    wish: u32,
    engines: u32,
    services: &[u32],
    periods: &[u32],
    out: &mut [u8],
) -> Result<usize, Refusal>
    ensures { Writes (build_from wish (wanted engines services.now periods.now) (length out.old)) result
        out.old out.new }
{
    let duties = take_duties(engines, services, periods)?;
    let greatest = duties.greatest();
    let t = length_meant(wish, greatest);
    if greatest % t != 0 {
        return Err(Refusal::BlockLength);
    }
    build_fitting(&Laying::new(t, engines, duties), out)
}
