// The reply to the direct question: which duty an engine runs at a tick, and on which row, of a judged table. One search for the
// run that holds the unit is all that looks at the runs, whatever the tick.
// `as` stands where std has no `From` (32 bits to usize, usize to u64), or where it is proved that nothing is lost (d).
#![tactic(auto)]

ghost use Rattle.std.specs.Prelude.{◌≡◌};
ghost use Rattle.paper.specs.Answers.{replied};
ghost use Rattle.paper.specs.Outcome.{outcome_of};

use paper::{Engine, Refusal, Reply};
use rotation::row_in;
use table_tally::Accepted;
use unit_holder::held;

// What an engine runs at a tick of a judged table.
pub fn reply_at(accepted: &Accepted, engine: Engine, tick: u64) -> Result<Reply, Refusal>
    ensures { outcome_of result ≡ replied accepted.now engine tick }
{
    let table = accepted.table();
    let reading = table.reading();
    if reading.engines <= engine.0 {
        return Err(Refusal::NoEngine);
    }
    let t = u64::from(reading.block_length);
    let row = row_in(accepted.edges(), engine, tick / t);
    let held = held(table, row, (tick % t) as u32);
    Ok(Reply { held, row })
}
