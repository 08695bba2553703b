// Every range and every length that code has, once; `specs/Limits.antt` has the same for definitions and contracts. What is said of one in
// a contract is proved of the other, so that neither can be changed alone.
// `as` stands where std has no `From` (32 bits to usize, usize to u64), or where it is proved that nothing is lost (d).

// Engines (and rows), duties and runs of a table; rows once more, as a row's number is counted.
pub const MOST_ENGINES: usize = 32;

pub const MOST_DUTIES: usize = 64;

pub const MOST_RUNS: usize = 128;

pub const MOST_ROWS: u32 = MOST_ENGINES as u32;

// Ticks of a period and of a block.
pub const MOST_TICKS: u32 = 1000000;

// A table's records: their kinds and lengths.
pub const HEAD_KIND: u8 = 1;

pub const DUTY_KIND: u8 = 2;

pub const RUN_KIND: u8 = 3;

pub const END_KIND: u8 = 4;

pub const HEAD_LENGTH: usize = 7;

pub const DUTY_LENGTH: usize = 9;

pub const RUN_LENGTH: usize = 11;

pub const END_LENGTH: usize = 3;

// The bytes of the widest field of a record, a number of 32 bits.
pub const MOST_FIELD: usize = 4;

// The bytes of a duty's number in a record, and where the fields after it stand in a run's.
pub const DUTY_FIELD: usize = 1;

pub const FIRST_FIELD: usize = 2 + DUTY_FIELD;

pub const LENGTH_FIELD: usize = 6 + DUTY_FIELD;

// The longest table.
pub const MOST_TABLE: usize = HEAD_LENGTH
    + DUTY_LENGTH * MOST_DUTIES
    + RUN_LENGTH * MOST_RUNS
    + END_LENGTH;

// The rows that have edges: all that there may be, and one past them.
pub const EDGE_ROWS: usize = MOST_ENGINES + 1;

// The pointers of all runs, and the fronts of all duties' lists.
pub const POINTERS: usize = MOST_RUNS + MOST_DUTIES;

// Blocks of a count, blocks of a plan of shares, and the last block that there is.
pub const MOST_BLOCKS: u64 = 1000000000000;

pub const MOST_SHARE_BLOCKS: u32 = 4096;

pub const LAST_BLOCK: u64 = 18446744073709551615;

// The program's input: its bytes, a number's digits, and the engines that `-` means; and room for a plan's text.
pub const MOST_INPUT: usize = 4096;

pub const MOST_DIGITS: usize = 9;

pub const DEFAULT_ENGINES: u32 = 4;

pub const TEXT_ROOM: usize = 8192;

// The entries of lent answers and of a dispatcher's state.
pub const WORD_ROOM: usize = 1;

pub const READING_ROOM: usize = 4;

pub const REPLY_ROOM: usize = 2;

pub const SHARE_READING_ROOM: usize = 3;

pub const STATE_ROOM: usize = MOST_ENGINES + 1;

// The largest number of 32 bits, which no row has; the entry that stands for idle.
pub const NO_ROW: u32 = 4294967295;

pub const IDLE: u64 = 18446744073709551615;
