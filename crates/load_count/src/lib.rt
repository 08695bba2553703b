// The count of loads of a table that was judged, by its reading and what is carried: nothing looks at the runs, and nothing walks
// over blocks or ticks.
#![tactic(auto)]

ghost use Rattle.std.specs.Prelude.{◌≡◌, ◌+◌, ◌-◌, ◌*◌, ◌≤◌};
ghost use Rattle.paper.specs.Limits.{most_blocks, most_runs};
ghost use Rattle.paper.specs.Walk.{loads};
ghost use Rattle.paper.specs.Answers.{count_of};
ghost use Rattle.paper.specs.Outcome.{outcome_of};

use carried_over::kept_over;
use paper::Refusal;
use paper::limits::MOST_BLOCKS;
use table_tally::Accepted;

// The loads of some blocks: so many in the first, and in each later one but for those that are kept over the boundary.
fn over_blocks(blocks: u64, loads: u64, kept: u64) -> u64
    requires { (1 ≤ blocks) × (blocks ≤ most_blocks) × (loads ≤ most_runs) × (kept ≤ loads) }
    ensures { result ≡ loads + (blocks - 1) * (loads - kept) }
{
    loads + (blocks - 1) * (loads - kept)
}

// The loads of a table's first blocks: in the first there is one for each run.
fn loads_in(accepted: &Accepted, blocks: u64) -> u64
    requires { blocks ≤ most_blocks }
    ensures { result ≡ loads accepted.now blocks }
{
    let reading = accepted.table().reading();
    if blocks == 0 {
        return 0;
    }
    let kept = u64::from(kept_over(accepted));
    over_blocks(blocks, u64::from(reading.runs), kept)
}

// The count, or that there are too many blocks.
pub fn count_in(accepted: &Accepted, blocks: u64) -> Result<u64, Refusal>
    ensures { outcome_of result ≡ count_of accepted.now blocks }
{
    if MOST_BLOCKS < blocks {
        return Err(Refusal::ManyBlocks);
    }
    Ok(loads_in(accepted, blocks))
}
