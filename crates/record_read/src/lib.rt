// The records of a table as they are read: each is one byte of kind and a body, read as a struct at an offset. Numbers are
// little-endian. And what bytes in good form give to those who read on: where each record stands, and the duties and runs in them.
// `as` stands where std has no `From` (32 bits to usize, usize to u64), or where it is proved that nothing is lost (d).
#![tactic(auto)]

ghost use Rattle.std.specs.Prelude.{◌≡◌, ◌+◌, ◌^◌, ◌<◌, ◌≤◌, length};
ghost use Rattle.laws.specs.Digits.{num_at};
ghost use Rattle.paper.specs.Limits.{small, most_ticks, most_duties, most_runs, head_length, duty_length, run_length};
ghost use Rattle.paper.specs.Bytes.{duty_in, run_in, duty_place, run_place, read_table};
ghost use Rattle.paper.specs.Outcome.{answer};
ghost use Rattle.paper.specs.Duties.{duty_at};
ghost use Rattle.paper.specs.Words.{stop, covers, run_at};
ghost use Rattle.paper.specs.Statements.{DutyRanged, RunRanged, Ranged};
ghost use Rattle.paper.specs.Rules.{reading_of};
ghost use Rattle.record_read.specs.Kinds.{kind_byte, kind_length};
ghost use Rattle.record_read.specs.Formed.{IsHead, Formed};

use paper::limits::{
    DUTY_KIND, DUTY_LENGTH, END_KIND, END_LENGTH, FIRST_FIELD, HEAD_KIND, HEAD_LENGTH,
    LENGTH_FIELD, MOST_FIELD, RUN_KIND, RUN_LENGTH,
};
use paper::{Duty, Reading, Row, Run};
use std::marker::Model;

// The kinds of records.
#[derive(Clone, Copy, Debug, PartialEq, Eq)]
pub enum Kind {
    Head,
    Duty,
    Run,
    End,
}

impl Kind {
    // The byte that a record of the kind begins with.
    pub fn byte(self) -> u8
        ensures { result ≡ kind_byte self }
    {
        match self {
            Kind::Head => HEAD_KIND,
            Kind::Duty => DUTY_KIND,
            Kind::Run => RUN_KIND,
            Kind::End => END_KIND,
        }
    }

    // How many bytes a record of the kind has, that byte with them.
    pub fn length(self) -> usize
        ensures { result ≡ kind_length self }
    {
        match self {
            Kind::Head => HEAD_LENGTH,
            Kind::Duty => DUTY_LENGTH,
            Kind::Run => RUN_LENGTH,
            Kind::End => END_LENGTH,
        }
    }
}

// A field of N bytes.
pub fn read_field<const N: usize>(b: &[u8], at: usize) -> u32
    requires short { N ≤ 4 }
    requires there { at + N ≤ length b.now }
    ensures told { result ≡ num_at N b.now at }
    ensures bounded { result < 256 ^ N }
{
    let mut field = [0u8; MOST_FIELD];
    field[..N].copy_from_slice(&b[at..at + N]);
    u32::from_le_bytes(field)
}

// What a table's head holds: the block length, and how many engines and duties there are.
#[derive(Clone, Copy, Debug, PartialEq, Eq)]
pub struct Head {
    pub block_length: u32,
    pub engines: u32,
    pub duties: u32,
}

// The head.
pub fn read_head(b: &[u8]) -> Head
    requires { head_length small ≤ length b.now }
    ensures { IsHead b.now result }
{
    let block_length = read_field::<4>(b, 1);
    let engines = read_field::<1>(b, 5);
    let duties = read_field::<1>(b, 6);
    Head {
        block_length,
        engines,
        duties,
    }
}

// The duty in the record at an offset.
#[tactic(auto, unfolding(paper::specs::Bytes::duty_in))]
pub fn read_duty(b: &[u8], at: usize) -> Duty
    requires { at + duty_length ≤ length b.now }
    ensures { result ≡ duty_in b.now at }
{
    let service = read_field::<4>(b, at + 1);
    let period = read_field::<4>(b, at + 5);
    Duty { service, period }
}

// The run in the record at an offset.
#[tactic(auto, unfolding(paper::specs::Bytes::run_in))]
pub fn read_run(b: &[u8], at: usize) -> Run
    requires { at + run_length small ≤ length b.now }
    ensures { result ≡ run_in small b.now at }
{
    let row = read_field::<1>(b, at + 1);
    let duty = read_field::<1>(b, at + 2);
    let first = read_field::<4>(b, at + FIRST_FIELD);
    let length = read_field::<4>(b, at + LENGTH_FIELD);
    Run {
        row: Row(row),
        duty,
        first,
        length,
    }
}

// Whether a run is on the row and has the unit.
#[tactic(auto, unfolding(paper::specs::Words::covers))]
pub fn run_covers(x: Run, row: Row, unit: u32) -> bool
    requires { stop x ≤ most_ticks }
    ensures { result ≡ covers x row unit }
{
    (x.row == row) & (x.first <= unit) & (unit < x.first + x.length)
}

// Where the record of duty d stands.
pub fn duty_place(d: usize) -> usize
    requires { d ≤ most_duties }
    ensures { result ≡ duty_place small d }
{
    HEAD_LENGTH + DUTY_LENGTH * d
}

// Where the record of run k stands, after the duties.
pub fn run_place(duties: usize, k: usize) -> usize
    requires { (duties ≤ most_duties) × (k ≤ most_runs) }
    ensures { result ≡ run_place small duties k }
{
    HEAD_LENGTH + DUTY_LENGTH * duties + RUN_LENGTH * k
}

// A table's bytes in good form, with what their reader read off them. A contract sees the table in them.
#[derive(Drop)]
pub struct TableBytes<'a> {
    bytes: &'a [u8],
    reading: Reading,
}

impl<'a> Model for TableBytes<'a> {
    ghost use Rattle.paper.specs.Words.{Table};

    ghost Value = { Table };

    ghost use Rattle.record_read.specs.Formed.{Formed, table_of};

    ghost view = { λ t. table_of t.bytes.now t.reading };

    ghost invariant = { λ t. Formed t.bytes.now t.reading };
}

impl<'a> TableBytes<'a> {
    // Bytes in good form, and their reading.
    pub fn new(bytes: &'a [u8], reading: Reading) -> TableBytes<'a>
        requires { Formed bytes.now reading }
        ensures { answer result ≡ read_table bytes.now }
    {
        TableBytes { bytes, reading }
    }

    // The block length, and how many engines, duties and runs there are.
    pub fn reading(&self) -> Reading
        ensures told { result ≡ reading_of self.now }
        ensures fields { (result.block_length ≡ self.now.ticks) × (result.engines ≡ self.now.engines)
            × (result.duties ≡ length self.now.duties) × (result.runs ≡ length self.now.runs) }
        ensures ranged { Ranged small self.now }
    {
        self.reading
    }

    // How many duties there are. (`as` here and below: std has no `From` of 32 bits to `usize`, and nothing is lost.)
    pub fn duties(&self) -> usize
        ensures told { result ≡ length self.now.duties }
        ensures ranged { Ranged small self.now }
    {
        self.reading.duties as usize
    }

    // How many runs there are.
    pub fn runs(&self) -> usize
        ensures told { result ≡ length self.now.runs }
        ensures ranged { Ranged small self.now }
    {
        self.reading.runs as usize
    }

    // Duty d.
    pub fn duty(&self, d: usize) -> Duty
        requires { d < length self.now.duties }
        ensures told { result ≡ duty_at self.now.duties d }
        ensures ranged { DutyRanged result }
    {
        read_duty(self.bytes, duty_place(d))
    }

    // Run k.
    pub fn run(&self, k: usize) -> Run
        requires { k < length self.now.runs }
        ensures told { result ≡ run_at self.now.runs k }
        ensures ranged { RunRanged self.now.ticks self.now.engines (length self.now.duties) result }
    {
        read_run(self.bytes, run_place(self.reading.duties as usize, k))
    }
}
