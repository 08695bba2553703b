// The words of document 01 that code and definitions share. A row is a line of the plan, an engine is the hardware:
// two types, and the rotation alone turns one into the other.

#![tactic(auto)]

ghost use Rattle.std.specs.Prelude.{◌≡◌};
ghost use Rattle.paper.specs.declared.Refusal.TheVariants.{Table};
ghost use Rattle.paper.specs.Outcome.{fault_number, fault_place, number_of, place_of};

pub mod limits;

use limits::{MOST_DUTIES, MOST_ENGINES};

// A line of the plan for one block.
#[derive(Clone, Copy, Debug, PartialEq, Eq)]
pub struct Row(pub u32);

// A packet engine, the hardware.
#[derive(Clone, Copy, Debug, PartialEq, Eq)]
pub struct Engine(pub u32);

// A maximal string of chained rows: the first of them, and how many there are.
#[derive(Clone, Copy, Debug, PartialEq, Eq)]
pub struct Chain {
    pub first: Row,
    pub length: u32,
}

// A duty: `service` ticks in each period of `period` ticks.
#[derive(Clone, Copy, Debug, PartialEq, Eq)]
pub struct Duty {
    pub service: u32,
    pub period: u32,
}

// A stretch of units on one row, given to one duty.
#[derive(Clone, Copy, Debug, PartialEq, Eq)]
pub struct Run {
    pub row: Row,
    pub duty: u32,
    pub first: u32,
    pub length: u32,
}

// What holds a unit of a row, or an engine at a tick: nothing, or a duty by its number.
pub type Held = Option<u32>;

// What a judge reads off an accepted table: the block length, and how many engines, duties and runs there are.
#[derive(Clone, Copy, Debug, PartialEq, Eq)]
pub struct Reading {
    pub block_length: u32,
    pub engines: u32,
    pub duties: u32,
    pub runs: u32,
}

// Why a table is no good, the faults 10 to 17, each with the record's offset, the duty or the run.
#[derive(Clone, Copy, Debug, PartialEq, Eq)]
pub enum Fault {
    Form(usize),
    BlockLength,
    Slice(usize),
    Order(usize),
    Overlap(usize),
    Joint(usize),
    Twice(usize),
    Service(usize),
}

impl Fault {
    // A fault's number.
    pub fn number(self) -> u32
        ensures { result ≡ fault_number self }
    {
        match self {
            Fault::Form(_) => 10,
            Fault::BlockLength => 11,
            Fault::Slice(_) => 12,
            Fault::Order(_) => 13,
            Fault::Overlap(_) => 14,
            Fault::Joint(_) => 15,
            Fault::Twice(_) => 16,
            Fault::Service(_) => 17,
        }
    }

    // A fault's place, 0 where none is named.
    pub fn place(self) -> usize
        ensures { result ≡ fault_place self }
    {
        match self {
            Fault::BlockLength => 0,
            Fault::Form(at) => at,
            Fault::Slice(d) | Fault::Service(d) => d,
            Fault::Order(k) | Fault::Overlap(k) | Fault::Joint(k) | Fault::Twice(k) => k,
        }
    }
}

// Why a call is refused, in the order of the numbers: 1 to 5 of what is asked for, 6 to 8 of a plan of slices, 9 of a text, 10 to 17 of a
// table, 18 to 21 of what is asked of one, 22 and 23 of a plan of shares, 24 of a wanted block length, 255 of a lent list of the face.
#[derive(Clone, Copy, Debug, PartialEq, Eq)]
pub enum Refusal {
    Engines,
    Lengths,
    Duties,
    Period(usize),
    Service(usize),
    PartSlice(usize),
    Overload,
    Room(usize),
    Input(usize),
    Table(Fault),
    NoEngine,
    ManyBlocks,
    StrangeState,
    LastBlock,
    ManyShareBlocks,
    ShareBlock(usize),
    BlockLength,
    Lent(usize),
}

impl Refusal {
    // The number that document 01 gives it.
    pub fn number(self) -> u32
        ensures { result ≡ number_of self }
    {
        match self {
            Refusal::Engines => 1,
            Refusal::Lengths => 2,
            Refusal::Duties => 3,
            Refusal::Period(_) => 4,
            Refusal::Service(_) => 5,
            Refusal::PartSlice(_) => 6,
            Refusal::Overload => 7,
            Refusal::Room(_) => 8,
            Refusal::Input(_) => 9,
            Refusal::Table(fault) => fault.number(),
            Refusal::NoEngine => 18,
            Refusal::ManyBlocks => 19,
            Refusal::StrangeState => 20,
            Refusal::LastBlock => 21,
            Refusal::ManyShareBlocks => 22,
            Refusal::ShareBlock(_) => 23,
            Refusal::BlockLength => 24,
            Refusal::Lent(_) => 255,
        }
    }

    // The place that goes with it, 0 where none is named.
    pub fn place(self) -> usize
        ensures { result ≡ place_of self }
    {
        match self {
            Refusal::Period(d) | Refusal::Service(d) | Refusal::PartSlice(d) => d,
            Refusal::Room(needed) | Refusal::Lent(needed) => needed,
            Refusal::Input(line) => line,
            Refusal::Table(fault) => fault.place(),
            Refusal::ShareBlock(block) => block,
            _ => 0,
        }
    }
}

// A table's fault as a refusal, which `?` makes of it.
impl From<Fault> for Refusal {
    ghost from_gives = { λ fault r. r ≡ Table fault };

    fn from(fault: Fault) -> Refusal {
        Refusal::Table(fault)
    }
}

// What an engine runs at a tick, and on which row.
#[derive(Clone, Copy, Debug, PartialEq, Eq)]
pub struct Reply {
    pub held: Held,
    pub row: Row,
}

// A dispatcher's state: a block, and the row of each engine in it, 0 past the last engine.
#[derive(Clone, Copy, Debug, PartialEq, Eq)]
pub struct State {
    pub block: u64,
    pub rows: [Row; MOST_ENGINES],
}

// What a dispatcher hands back: a verdict, and the state. A refusal holds block 0 and rows all 0.
// No Result of a state (a): document 01 says what the state of a refusal holds, and `dispatch_state/refusal_tells_a_block` tells another.
#[derive(Clone, Copy, Debug, PartialEq, Eq)]
pub struct Dispatched {
    pub verdict: Result<(), Refusal>,
    pub state: State,
}

// What stands in the plan program's input: the engines, how many duties, and the service and the period of each; past the last duty
// they are 0. Two lists and a count (a): a fixed memory, and the builder reads two lists.
#[derive(Clone, Copy, Debug, PartialEq, Eq)]
pub struct Input {
    pub engines: u32,
    pub duties: u32,
    pub services: [u32; MOST_DUTIES],
    pub periods: [u32; MOST_DUTIES],
}

// What the builder of shares tells of the list that it wrote: its entries, the block length, and the blocks up to the periods' least common
// multiple.
#[derive(Clone, Copy, Debug, PartialEq, Eq)]
pub struct ShareReading {
    pub entries: usize,
    pub block_length: u32,
    pub blocks: u32,
}
