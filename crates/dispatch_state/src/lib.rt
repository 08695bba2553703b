// What a dispatcher's state, a block and the rows of all engines in it, comes to: whether it is the one for its block, the state of the
// block after it, the row of an engine, or a refusal with no state.
#![tactic(auto)]

ghost use Rattle.std.specs.Prelude.{◌≡◌};
ghost use Rattle.paper.specs.Outcome.{outcome_of};
ghost use Rattle.paper.specs.Answers.{Hands, state_at, is_state, next_by, row_by};
ghost use Rattle.paper.specs.Rotation.{link};

use dispatch_rows::rows_at;
use paper::limits::{LAST_BLOCK, MOST_ENGINES};
use paper::{Dispatched, Engine, Refusal, Row, State};
use rotation::row_in;
use table_tally::Accepted;

// Whether a state is the one for its block.
fn is_own(accepted: &Accepted, s: &State) -> bool
    ensures { result ≡ is_state (link accepted.now) accepted.now.engines s.now }
{
    s.rows == rows_at(accepted, s.block)
}

// The state of a block.
pub fn state_at(accepted: &Accepted, block: u64) -> State
    ensures { result ≡ state_at (link accepted.now) accepted.now.engines block }
{
    let rows = rows_at(accepted, block);
    State { block, rows }
}

// The state of the block after a state's.
pub fn advance(accepted: &Accepted, s: State) -> Result<State, Refusal>
    ensures { outcome_of result ≡ next_by (link accepted.now) accepted.now.engines s }
{
    if !is_own(accepted, &s) {
        return Err(Refusal::StrangeState);
    }
    let block = s.block;
    if block == LAST_BLOCK {
        return Err(Refusal::LastBlock);
    }
    let next = block + 1;
    Ok(state_at(accepted, next))
}

// The row of an engine by a state.
pub fn tell(accepted: &Accepted, s: State, engine: Engine) -> Result<Row, Refusal>
    ensures { outcome_of result ≡ row_by (link accepted.now) accepted.now.engines s engine }
{
    let engines = accepted.table().reading().engines;
    if engines <= engine.0 {
        return Err(Refusal::NoEngine);
    }
    if !is_own(accepted, &s) {
        return Err(Refusal::StrangeState);
    }
    Ok(row_in(accepted.edges(), engine, s.block))
}

// What a dispatcher hands back: the state, or a refusal with a state beside it that is none.
pub fn handed(outcome: Result<State, Refusal>) -> Dispatched
    ensures { Hands (outcome_of outcome) result }
{
    match outcome {
        Ok(state) => Dispatched {
            verdict: Ok(()),
            state,
        },
        Err(why) => {
            let rows = [Row(0); MOST_ENGINES];
            Dispatched {
                verdict: Err(why),
                state: State { block: 0, rows },
            }
        }
    }
}
