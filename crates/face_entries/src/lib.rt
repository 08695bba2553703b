// Lists that a caller of the face lends: the entries of answers told; a dispatcher's state, the block and then the rows, taken and put; and
// what a dispatcher hands back, handed over.
// `as` stands where std has no `From` (32 bits to usize, usize to u64), or where it is proved that nothing is lost (d).
#![tactic(auto)]

ghost use Rattle.std.specs.Prelude.{◌≡◌, [], ◌∷◌, ◌≤◌, length, ℕ, List};
ghost use Rattle.laws.specs.Lists.{over};
ghost use Rattle.paper.specs.Limits.{state_room};
ghost use Rattle.paper.specs.Words.{row_numbers};
ghost use Rattle.paper.specs.Outcome.{verdict_as, outcome_of};
ghost use Rattle.paper.specs.Face.{Tells, entries, reading_entries, reply_entries, state_entries, share_reading_entries, held_entry};
ghost use Rattle.face_entries.specs.InWord.{InWord};
ghost use Rattle.face_entries.specs.Numbers.{NumbersInWord, numbers_as};
ghost use Rattle.face_entries.specs.Cut.{cut_state};

use face_words::{held_entry, narrow, word_of, word_of_numbers};
use paper::limits::{MOST_ENGINES, READING_ROOM, REPLY_ROOM, SHARE_READING_ROOM, WORD_ROOM};
use paper::{Dispatched, Held, Reading, Refusal, Reply, Row, ShareReading, State};
use std::array;

// What a call answers with, as so many entries of a lent list.
pub trait Entries<const N: usize> {
    ghost told: { Self → List ℕ };

    fn entries(self) -> [u64; N]
        ensures { result ≡ told self };
}

// A number: how many bytes a table has.
impl Entries<WORD_ROOM> for usize {
    ghost told = { λ n. n ∷ [] };

    fn entries(self) -> [u64; WORD_ROOM] {
        [self as u64]
    }
}

// A number: the loads.
impl Entries<WORD_ROOM> for u64 {
    ghost told = { λ n. n ∷ [] };

    fn entries(self) -> [u64; WORD_ROOM] {
        [self]
    }
}

// A row.
impl Entries<WORD_ROOM> for Row {
    ghost told = { λ r. r.0 ∷ [] };

    fn entries(self) -> [u64; WORD_ROOM] {
        [u64::from(self.0)]
    }
}

// What holds a tick: the duty, or the mark for idle.
impl Entries<WORD_ROOM> for Held {
    ghost told = { λ h. held_entry h ∷ [] };

    fn entries(self) -> [u64; WORD_ROOM] {
        [held_entry(self)]
    }
}

// A table's reading: block length, engines, duties, runs.
impl Entries<READING_ROOM> for Reading {
    ghost told = { reading_entries };

    fn entries(self) -> [u64; READING_ROOM] {
        let Reading {
            block_length,
            engines,
            duties,
            runs,
        } = self;
        [block_length, engines, duties, runs].map(u64::from)
    }
}

// A reply: the row, and the duty or the mark for idle.
impl Entries<REPLY_ROOM> for Reply {
    ghost told = { reply_entries };

    fn entries(self) -> [u64; REPLY_ROOM] {
        let row = u64::from(self.row.0);
        let held = held_entry(self.held);
        [row, held]
    }
}

// What is told of a plan of shares: entries, block length, blocks.
impl Entries<SHARE_READING_ROOM> for ShareReading {
    ghost told = { share_reading_entries };

    fn entries(self) -> [u64; SHARE_READING_ROOM] {
        [
            self.entries as u64,
            u64::from(self.block_length),
            u64::from(self.blocks),
        ]
    }
}

// A call's answer as a word, and as entries over the front of the lent list where it is no refusal.
pub fn tell<const N: usize, A: Entries<N>>(outcome: Result<A, Refusal>, answer: &mut [u64]) -> u64
    requires fits { InWord outcome }
    requires room { N ≤ length answer.old }
    ensures { Tells (entries A.told (outcome_of outcome)) result answer.old answer.new }
{
    match outcome {
        Err(why) => word_of(why),
        Ok(told) => {
            answer[..N].copy_from_slice(&told.entries());
            0
        }
    }
}

// The state in a lent list; an entry too large for a row becomes a number that no row has.
pub fn state_in(state: &[u64]) -> State
    requires { state_room ≤ length state.now }
    ensures { result ≡ cut_state state.now }
{
    let block = state[0];
    let rows = array::from_fn(|e| Row(narrow(state[e + 1])));
    State { block, rows }
}

// A block and its rows put into a lent state. No `Entries`: told so, a state is copied twice more, and a step took 447 ns for 349 (8 runs).
pub fn put_state(state: &mut [u64], block: u64, rows: [Row; MOST_ENGINES])
    requires { state_room ≤ length state.old }
    ensures { state.new ≡ over (block ∷ row_numbers rows) state.old }
{
    state[0] = block;
    for e in 0..MOST_ENGINES {
        let row = rows[e];
        state[e + 1] = u64::from(row.0);
    }
}

// What a dispatcher hands back, by bare numbers: a refusal of any number and place as a word; without one, 0 and the state's entries. The
// state is lent, so that it is copied no more than where it is handed over whole.
pub fn hand_over_numbers(refusal: Option<(u32, usize)>, next: &State, state: &mut [u64]) -> u64
    requires fits { NumbersInWord refusal }
    requires room { state_room ≤ length state.old }
    ensures { Tells (entries state_entries (numbers_as refusal next.now)) result state.old state.new }
{
    match refusal {
        Some((number, place)) => word_of_numbers(number, place),
        None => {
            put_state(state, next.block, next.rows);
            0
        }
    }
}

// What a dispatcher hands back as a word, and as the entries of its state where it is done.
pub fn hand_over(done: Dispatched, state: &mut [u64]) -> u64
    requires { InWord done.verdict × (state_room ≤ length state.old) }
    ensures { Tells (entries state_entries (verdict_as done.verdict done.state)) result state.old state.new }
{
    let refusal = match done.verdict {
        Err(why) => Some((why.number(), why.place())),
        Ok(()) => None,
    };
    hand_over_numbers(refusal, &done.state, state)
}
