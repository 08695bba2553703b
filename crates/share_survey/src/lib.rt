// A plan of shares looked through, before anything is written.
#![tactic(auto)]

ghost use Rattle.std.specs.Prelude.{◌≡◌, ◌≤◌, ◌<◌, length};
ghost use Rattle.paper.specs.Sa2.{duty_count};
ghost use Rattle.paper.specs.Shares.{blocks};
ghost use Rattle.share_survey.specs.Looking.{Looks};

use paper::Refusal;
use paper::limits::MOST_DUTIES;
use share_block::{Lists, Paces};
use share_common::Sharing;
use share_pass::pass_blocks;

// Looks at all blocks; 23 at the first that comes short. What block `keep` gives stays in `units`, and the blocks' cuts in `cuts`.
pub fn survey(
    sharing: &Sharing,
    keep: u32,
    units: &mut [u32],
    cuts: &mut [u8],
) -> Result<(), Refusal>
    requires keep_below { keep < blocks sharing.now }
    requires room { (duty_count sharing.now ≤ length units.old) × (blocks sharing.now ≤ length cuts.old) }
    ensures { Looks sharing.now keep result units.old units.new cuts.new }
{
    let blocks = sharing.blocks();
    let mut lists = Lists::new();
    let mut paces = Paces::begin(sharing, &mut lists);
    let mut spare = [0; MOST_DUTIES];
    pass_blocks(&mut paces, keep + 1, units, cuts)?;
    pass_blocks(&mut paces, blocks, &mut spare, cuts)
}
