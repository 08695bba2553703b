// SA2 over many blocks: up to the first that comes short, with the cuts kept; or all of them into a list, by their cuts.
// `as` stands where std has no `From` (32 bits to usize, usize to u64), or where it is proved that nothing is lost (d).
#![tactic(auto)]

ghost use Rattle.std.specs.Prelude.{◌≡◌, ◌*◌, ◌≤◌, length};
ghost use Rattle.laws.specs.Lists.{over};
ghost use Rattle.paper.specs.Sa2.{duty_count};
ghost use Rattle.share_laws.specs.Cut.{HasCuts};
ghost use Rattle.share_block.specs.Paced.{pace};
ghost use Rattle.share_pass.specs.Passing.{Passes, allotted};

use paper::Refusal;
use share_block::Paces;

// Shares out the blocks from the next one to before `to`; 23 at the first that comes short. What the last of them gives stays in `units`,
// and each one's cut in `cuts`. It is compiled where it is called, as `share_block` is.
#[inline(always)]
pub fn pass_blocks(
    paces: &mut Paces,
    to: u32,
    units: &mut [u32],
    cuts: &mut [u8],
) -> Result<(), Refusal>
    requires room { duty_count paces.old.sharing ≤ length units.old }
    requires blocks { (paces.old.block ≤ to) × (to ≤ length cuts.old) }
    ensures { Passes paces.old to units.old cuts.old result paces.new units.new cuts.new }
{
    for b in paces.block()..u64::from(to) {
        let shared = paces.share_block(units);
        if shared.short {
            return Err(Refusal::ShareBlock(b as usize));
        }
        cuts[b as usize] = shared.cut as u8;
    }
    Ok(())
}

// Shares out so many blocks from the first on by their cuts, each into the list where the one before has stopped. No block is looked at
// again: neither its free units nor whether it comes short.
pub fn put_blocks(paces: &mut Paces, blocks: u32, cuts: &[u8], list: &mut [u32])
    requires start { paces.old.block ≡ 0 }
    requires room { (blocks ≤ length cuts.now) × (blocks * duty_count paces.old.sharing ≤ length list.old) }
    requires has_cuts { HasCuts paces.old.sharing 0 blocks cuts.now }
    ensures written { list.new ≡ over (allotted paces.old.sharing blocks) list.old }
    ensures next { paces.new ≡ pace paces.old.sharing blocks }
{
    let duties = paces.duty_count();
    // (a) `at` is counted: over `chunks_exact_mut(duties)` the wrong program of the edit `one_entry_off`, to be refused, can't be written.
    let mut at = 0;
    for cut in &cuts[..blocks as usize] {
        paces.share_by_cut(u32::from(*cut), &mut list[at..]);
        at += duties;
    }
}
