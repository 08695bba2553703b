// A plan of shares written to a list, by the cuts that were found when it was looked through.
#![tactic(auto)]

ghost use Rattle.std.specs.Prelude.{◌≡◌, ◌≤◌, length};
ghost use Rattle.laws.specs.Lists.{over};
ghost use Rattle.paper.specs.Shares.{blocks, entries_needed, share_list};
ghost use Rattle.share_laws.specs.Cut.{HasCuts};

use share_block::{Lists, Paces};
use share_common::Sharing;
use share_pass::put_blocks;

// All blocks' allotments written, block by block.
pub fn write_list(sharing: &Sharing, cuts: &[u8], list: &mut [u32])
    requires room { (blocks sharing.now ≤ length cuts.now) × (entries_needed sharing.now ≤ length list.old) }
    requires has_cuts { HasCuts sharing.now 0 (blocks sharing.now) cuts.now }
    ensures { list.new ≡ over (share_list sharing.now) list.old }
{
    let mut lists = Lists::new();
    let mut paces = Paces::begin(sharing, &mut lists);
    put_blocks(&mut paces, sharing.blocks(), cuts, list);
}
