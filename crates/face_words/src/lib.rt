// Words and entries one at a time: a refusal as the word that a call returns, an entry of a lent state as a row number, and what holds a
// tick as an entry.
// `as` stands where std has no `From` (32 bits to usize, usize to u64), or where it is proved that nothing is lost (d).
#![tactic(auto)]

ghost use Rattle.std.specs.Prelude.{◌≡◌, ◌+◌, ◌*◌, ◌≤◌, ◌<◌, min};
ghost use Rattle.paper.specs.Limits.{most_place, no_row};
ghost use Rattle.paper.specs.Outcome.{number_of, place_of};
ghost use Rattle.paper.specs.Face.{held_entry};

use paper::limits::{IDLE, NO_ROW};
use paper::{Held, Refusal};

// A refusal of any number and place as a word: the number in the low eight bits, the place above them.
pub fn word_of_numbers(number: u32, place: usize) -> u64
    requires byte { number < 256 }
    requires fits { place ≤ most_place }
    ensures { result ≡ number + 256 * place }
{
    u64::from(number) + 256 * place as u64
}

// A refusal as a word.
pub fn word_of(why: Refusal) -> u64
    requires { place_of why ≤ most_place }
    ensures { result ≡ number_of why + 256 * place_of why }
{
    word_of_numbers(why.number(), why.place())
}

// The word for a lent list that is too short, with the entries needed.
pub fn too_short(needed: usize) -> u64
    requires { needed ≤ most_place }
    ensures { result ≡ 255 + 256 * needed }
{
    word_of(Refusal::Lent(needed))
}

// An entry of a lent state as a row number; one that is too large becomes a number that no row has. No Option (a): the
// dispatcher is to refuse such a state, and looks at all its rows.
pub fn narrow(x: u64) -> u32
    ensures { result ≡ min x no_row }
{
    u32::try_from(x).unwrap_or(NO_ROW)
}

// What holds a tick as one entry: the duty, or the mark for idle, which is the C interface's (a).
pub fn held_entry(held: Held) -> u64
    ensures { result ≡ held_entry held }
{
    held.map_or(IDLE, u64::from)
}
