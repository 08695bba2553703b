// A line of the plan program's input: where it ends, whether it is that of the engines or that of a duty, and what it says.
#![tactic(auto)]

ghost use Rattle.std.specs.Prelude.{◌≡◌, true, ◌≤◌, length, get_or, eqb};
ghost use Rattle.laws.specs.Search.{first};
ghost use Rattle.paper.specs.Text.{is_dash, engine_line_good, engines_read, duty_line_good, duty_read};
ghost use Rattle.line_read.specs.Line.{first_good, line_good};

use number_read::{is_number, value_of};
use paper::Duty;
use paper::limits::{DEFAULT_ENGINES, MOST_DUTIES};

// The first place of a byte, or the length where it is not there.
// (d) Not an Option: the definitions' `first` is the length where there is none, and the tests below hold it against that as they do.
pub fn find(b: &[u8], x: u8) -> usize
    ensures value { result ≡ first (λ k. eqb (get_or b.now k 0) x) (length b.now) }
    ensures upper_bound { result ≤ length b.now }
{
    b.iter().position(|y| *y == x).unwrap_or(b.len())
}

// Whether the first line is `-`.
fn is_dash(c: &[u8]) -> bool
    ensures { result ≡ is_dash c.now }
{
    c == b"-".as_slice()
}

// Whether the first line names the engines, or leaves it at `-`.
fn engine_line_good(c: &[u8]) -> bool
    ensures { result ≡ engine_line_good c.now }
{
    is_dash(c) | is_number(c)
}

// Whether the line before the line feed at `end` can be the first: it is ended, and names the engines or `-`.
pub fn first_line_good(b: &[u8], end: usize) -> bool
    requires { end ≤ length b.now }
    ensures { result ≡ first_good b.now end }
{
    (end < b.len()) & engine_line_good(&b[..end])
}

// The engines of the first line: `-` means 4.
pub fn engines_read(c: &[u8]) -> u32
    requires { engine_line_good c.now ≡ true }
    ensures { result ≡ engines_read c.now }
{
    if is_dash(c) {
        DEFAULT_ENGINES
    } else {
        value_of(c)
    }
}

// Whether a line is a service and a period with one space between.
fn duty_line_good(c: &[u8]) -> bool
    ensures { result ≡ duty_line_good c.now }
{
    let space = find(c, b' ');
    if space == c.len() {
        return false;
    }
    is_number(&c[..space]) & is_number(&c[space + 1..])
}

// The duty of a line.
pub fn duty_read(c: &[u8]) -> Duty
    requires { duty_line_good c.now ≡ true }
    ensures { result ≡ duty_read c.now }
{
    let space = find(c, b' ');
    let service = value_of(&c[..space]);
    let period = value_of(&c[space + 1..]);
    Duty { service, period }
}

// Whether the line before the line feed at `end` can be that of duty i: it is ended, no later than line 65, and a service
// and a period.
pub fn line_good(rest: &[u8], end: usize, i: usize) -> bool
    requires { end ≤ length rest.now }
    ensures { result ≡ line_good i rest.now end }
{
    (end < rest.len()) & (i < MOST_DUTIES) & duty_line_good(&rest[..end])
}
