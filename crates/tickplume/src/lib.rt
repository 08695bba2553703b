// The outside face, for C and Rust: include/tickplume.h says what each function takes, answers and refuses. A slice passes
// as a pointer and a length. The returned word is 0, or a refusal's number in the low eight bits and its place above them;
// a refused call writes nothing. Each call tests the room of what it was lent by itself (d): a function over them would take the call as a
// closure, and say no less.
#![tactic(auto)]

ghost use Rattle.std.specs.Prelude.{◌≡◌};
ghost use Rattle.paper.specs.Outcome.{leaves, outcome_of};
ghost use Rattle.paper.specs.Rules.{judged};
ghost use Rattle.paper.specs.Wanted.{wanted};
ghost use Rattle.paper.specs.Face.{Tells, build_call, build_entries, judge_call, question_call, start_call, row_call, next_call};
ghost use Rattle.paper.specs.Face.{count_call};
ghost use Rattle.paper.specs.Face.{shares_call, shares_entries, shares_left, share_at_call};

use asked::Dispatcher;
use face_entries::{hand_over, state_in, tell};
use face_words::too_short;
use paper::limits::{READING_ROOM, REPLY_ROOM, SHARE_READING_ROOM, STATE_ROOM, WORD_ROOM};
use paper::{Engine, Reading, Refusal};

// SA1's plan of the duties, in blocks of the wanted length, into the lent table.
#[unsafe(no_mangle)]
pub extern "C" fn tickplume_build(
    engines: u32,
    services: &[u32],
    periods: &[u32],
    block_length: u32,
    table: &mut [u8],
    answer: &mut [u64],
) -> u64
    ensures tells { Tells
        (build_entries (build_call block_length (wanted engines services.now periods.now) table.old
        answer.old)) result answer.old answer.new }
    ensures table_after { table.new ≡ leaves
        (build_call block_length (wanted engines services.now periods.now) table.old
        answer.old) table.old }
{
    if answer.len() < WORD_ROOM {
        return too_short(WORD_ROOM);
    }
    tell(
        builder::build(block_length, engines, services, periods, table),
        answer,
    )
}

// The reading of any bytes, or the fault as a refusal.
fn judged(table: &[u8]) -> Result<Reading, Refusal>
    ensures { outcome_of result ≡ judged table.now }
{
    let reading = judge::judge(table)?;
    Ok(reading)
}

// The reading of any bytes, or the fault.
#[unsafe(no_mangle)]
pub extern "C" fn tickplume_judge(table: &[u8], answer: &mut [u64]) -> u64
    ensures { Tells (judge_call table.now answer.old) result answer.old answer.new }
{
    if answer.len() < READING_ROOM {
        return too_short(READING_ROOM);
    }
    tell(judged(table), answer)
}

// What an engine does at a tick: its row, and the duty or the mark for idle.
#[unsafe(no_mangle)]
pub extern "C" fn tickplume_question(
    table: &[u8],
    engine: u32,
    tick: u64,
    answer: &mut [u64],
) -> u64
    ensures { Tells (question_call table.now engine tick answer.old) result answer.old
        answer.new }
{
    if answer.len() < REPLY_ROOM {
        return too_short(REPLY_ROOM);
    }
    tell(asked::question(table, Engine(engine), tick), answer)
}

// The dispatcher's state for a block.
#[unsafe(no_mangle)]
pub extern "C" fn tickplume_start(table: &[u8], block: u64, state: &mut [u64]) -> u64
    ensures { Tells (start_call table.now block state.old) result state.old state.new }
{
    if state.len() < STATE_ROOM {
        return too_short(STATE_ROOM);
    }
    hand_over(Dispatcher::start(table, block), state)
}

// The row of an engine in the state's block.
#[unsafe(no_mangle)]
pub extern "C" fn tickplume_row(table: &[u8], state: &[u64], engine: u32, answer: &mut [u64]) -> u64
    ensures { Tells (row_call table.now state.now engine answer.old) result answer.old
        answer.new }
{
    if state.len() < STATE_ROOM {
        return too_short(STATE_ROOM);
    }
    if answer.len() < WORD_ROOM {
        return too_short(WORD_ROOM);
    }
    let here = Dispatcher(state_in(state));
    tell(here.row(table, Engine(engine)), answer)
}

// The state of the next block, in the place of this one.
#[unsafe(no_mangle)]
pub extern "C" fn tickplume_next(table: &[u8], state: &mut [u64]) -> u64
    ensures { Tells (next_call table.now state.old) result state.old state.new }
{
    if state.len() < STATE_ROOM {
        return too_short(STATE_ROOM);
    }
    let here = Dispatcher(state_in(state));
    hand_over(here.next(table), state)
}

// The loads of the first blocks.
#[unsafe(no_mangle)]
pub extern "C" fn tickplume_count(table: &[u8], blocks: u64, answer: &mut [u64]) -> u64
    ensures { Tells (count_call table.now blocks answer.old) result answer.old answer.new }
{
    if answer.len() < WORD_ROOM {
        return too_short(WORD_ROOM);
    }
    tell(asked::count(table, blocks), answer)
}

// SA2's plan of the duties: the allotments, block by block, into the lent list.
#[unsafe(no_mangle)]
pub extern "C" fn tickplume_shares(
    engines: u32,
    services: &[u32],
    periods: &[u32],
    allotments: &mut [u32],
    answer: &mut [u64],
) -> u64
    ensures tells { Tells
        (shares_entries (shares_call (wanted engines services.now periods.now) allotments.old
        answer.old)) result answer.old answer.new }
    ensures allotments_after { allotments.new ≡ leaves
        (shares_left (shares_call (wanted engines services.now periods.now) allotments.old
        answer.old)) allotments.old }
{
    if answer.len() < SHARE_READING_ROOM {
        return too_short(SHARE_READING_ROOM);
    }
    tell(
        share_plan::build_shares(engines, services, periods, allotments),
        answer,
    )
}

// What an engine does at a tick in that plan: the duty or the mark for idle.
#[unsafe(no_mangle)]
pub extern "C" fn tickplume_share_at(
    engines: u32,
    services: &[u32],
    periods: &[u32],
    engine: u32,
    tick: u64,
    answer: &mut [u64],
) -> u64
    ensures { Tells
        (share_at_call (wanted engines services.now periods.now) engine tick answer.old) result
        answer.old answer.new }
{
    if answer.len() < WORD_ROOM {
        return too_short(WORD_ROOM);
    }
    tell(
        share_plan::share_question(engines, services, periods, Engine(engine), tick),
        answer,
    )
}
