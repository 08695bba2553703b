// Plans of shares by SA2: the builder of shares, and the question to its plan. Tests 1 to 5 come first, then 22 and 7.
// `as` stands where std has no `From` (32 bits to usize, usize to u64), or where it is proved that nothing is lost (d).
#![tactic(auto)]

ghost use Rattle.std.specs.Prelude.{◌≡◌, length};
ghost use Rattle.paper.specs.Outcome.{outcome_of};
ghost use Rattle.paper.specs.Shares.{GivesShares, share_plan, share_question};
ghost use Rattle.paper.specs.Wanted.{wanted};
ghost use Rattle.share_plan.specs.AfterCount.{list_from, held_from};

use paper::limits::{MOST_DUTIES, MOST_SHARE_BLOCKS};
use paper::{Engine, Held, Refusal, ShareReading};
use share_common::{Sharing, take_sharing};
use share_holder::held_at;
use share_list::write_list;
use share_survey::survey;

// The builder of shares from refusal 8 on. All blocks are looked through before one entry is written, and the cuts that were found on the
// way are what the writing goes by.
fn list_from(sharing: &Sharing, list: &mut [u32]) -> Result<ShareReading, Refusal>
    ensures { GivesShares (list_from (length list.old) sharing.now) result list.old list.new }
{
    let blocks = sharing.blocks();
    let entries = blocks as usize * sharing.duty_count();
    if list.len() < entries {
        return Err(Refusal::Room(entries));
    }
    let mut spare = [0; MOST_DUTIES];
    let mut cuts = [0; MOST_SHARE_BLOCKS as usize];
    survey(sharing, 0, &mut spare, &mut cuts)?;
    write_list(sharing, &cuts, list);
    Ok(ShareReading {
        entries,
        block_length: sharing.ticks(),
        blocks,
    })
}

// Builds a plan of shares from services and periods: each duty's units in each block, block by block, into the lent list. The answer tells
// the entries written, the block length and the blocks; entries past them stay. A refusal writes nothing.
pub fn build_shares(
    engines: u32,
    services: &[u32],
    periods: &[u32],
    list: &mut [u32],
) -> Result<ShareReading, Refusal>
    ensures { GivesShares (share_plan (wanted engines services.now periods.now) (length list.old)) result
        list.old list.new }
{
    let sharing = take_sharing(engines, services, periods)?;
    list_from(&sharing, list)
}

// The question from refusal 23 on. The engine keeps the row of its number, so the tick's place on the line of its block tells who runs.
fn held_from(sharing: &Sharing, engine: Engine, tick: u64) -> Result<Held, Refusal>
    ensures { outcome_of result ≡ held_from engine tick sharing.now }
{
    let ticks = sharing.ticks();
    let block = (tick / u64::from(ticks) % u64::from(sharing.blocks())) as u32;
    let mut units = [0; MOST_DUTIES];
    let mut cuts = [0; MOST_SHARE_BLOCKS as usize];
    survey(sharing, block, &mut units, &mut cuts)?;
    if sharing.engines() <= engine.0 {
        return Err(Refusal::NoEngine);
    }
    let place = engine.0 * ticks + (tick % u64::from(ticks)) as u32;
    Ok(held_at(&units[..sharing.duty_count()], place))
}

// What an engine runs at a tick in the plan of shares of the duties: a duty, or nothing.
pub fn share_question(
    engines: u32,
    services: &[u32],
    periods: &[u32],
    engine: Engine,
    tick: u64,
) -> Result<Held, Refusal>
    ensures { outcome_of result ≡ share_question (wanted engines services.now periods.now) engine tick }
{
    let sharing = take_sharing(engines, services, periods)?;
    held_from(&sharing, engine, tick)
}
