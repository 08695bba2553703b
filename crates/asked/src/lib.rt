// What is asked of any table bytes: the question, the dispatcher, which goes from block to block, and the count of loads. The bytes are
// judged first; then the parts below are asked, of the table that was accepted, and nothing walks over blocks or ticks.
#![tactic(auto)]

ghost use Rattle.std.specs.Prelude.{◌≡◌};
ghost use Rattle.paper.specs.Answers.{question, Hands, start, advanced, row_told, counted};
ghost use Rattle.paper.specs.Outcome.{outcome_of};

use dispatch_state::{advance, handed, state_at, tell};
use judge::rule_on;
use load_count::count_in;
use paper::{Dispatched, Engine, Refusal, Reply, Row, State};
use reply::reply_at;
use row_edges::Edges;

// A dispatcher, by its state.
#[derive(Clone, Copy, Debug, PartialEq, Eq)]
pub struct Dispatcher(pub State);

// What an engine runs at a tick, and on which row.
pub fn question(b: &[u8], engine: Engine, tick: u64) -> Result<Reply, Refusal>
    ensures { outcome_of result ≡ question b.now engine tick }
{
    let mut edges = Edges::new();
    let accepted = rule_on(b, &mut edges)?;
    reply_at(&accepted, engine, tick)
}

// The state of the block after a state's.
fn advanced(b: &[u8], here: State) -> Result<State, Refusal>
    ensures { outcome_of result ≡ advanced b.now here }
{
    let mut edges = Edges::new();
    let accepted = rule_on(b, &mut edges)?;
    advance(&accepted, here)
}

impl Dispatcher {
    // The state of any named block. No `?` (b): so told, a state is copied once more, which small tables showed.
    pub fn start(b: &[u8], block: u64) -> Dispatched
        ensures { Hands (start b.now block) result }
    {
        let mut edges = Edges::new();
        match rule_on(b, &mut edges) {
            Ok(accepted) => handed(Ok(state_at(&accepted, block))),
            Err(fault) => handed(Err(Refusal::Table(fault))),
        }
    }

    // The state of the next block.
    pub fn next(self, b: &[u8]) -> Dispatched
        ensures { Hands (advanced b.now self.0) result }
    {
        handed(advanced(b, self.0))
    }

    // The row of an engine.
    pub fn row(self, b: &[u8], engine: Engine) -> Result<Row, Refusal>
        ensures { outcome_of result ≡ row_told b.now self.0 engine }
    {
        let mut edges = Edges::new();
        let accepted = rule_on(b, &mut edges)?;
        tell(&accepted, self.0, engine)
    }
}

// The loads of the first blocks of a table.
pub fn count(b: &[u8], blocks: u64) -> Result<u64, Refusal>
    ensures { outcome_of result ≡ counted b.now blocks }
{
    let mut edges = Edges::new();
    let accepted = rule_on(b, &mut edges)?;
    count_in(&accepted, blocks)
}
