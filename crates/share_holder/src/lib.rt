// Who has a place of a block's line in a plan of shares.
// `as` stands where std has no `From` (32 bits to usize, usize to u64), or where it is proved that nothing is lost (d).
#![tactic(auto)]

ghost use Rattle.std.specs.Prelude.{◌≡◌, ◌≤◌, length};
ghost use Rattle.paper.specs.Limits.{most_duties};
ghost use Rattle.plan_laws.proofs.Line.{on_line};

use paper::Held;

// Who has a place of the line on which a block's units are laid, duty after duty.
pub fn held_at(units: &[u32], place: u32) -> Held
    requires { length units.now ≤ most_duties }
    ensures { result ≡ on_line units.now 0 0 place }
{
    let mut left = place;
    for (i, n) in (0..).zip(units) {
        if left < *n {
            return Some(i);
        }
        left -= *n;
    }
    None
}
