// The plan program's input: from bytes of any kind to engines and duties, or to the first faulty line. First a line's end
// is looked for, then the line is judged and read as a part of the bytes of its own.
// `as` stands where std has no `From` (32 bits to usize, usize to u64), or where it is proved that nothing is lost (d).
#![tactic(auto)]

ghost use Rattle.std.specs.Prelude.{◌≡◌};
ghost use Rattle.paper.specs.Outcome.{outcome_of};
ghost use Rattle.paper.specs.Text.{lines_of, duties_from, input, input_read};
ghost use Rattle.plan_input.specs.AsWanted.{with_engines};

use line_read::{duty_read, engines_read, find, first_line_good, line_good};
use paper::limits::{MOST_DUTIES, MOST_INPUT};
use paper::{Input, Refusal};

// The duties of the lines after the first, which named the engines: of each line its end, then what stands before it.
// Line i + 2 is that of duty i.
fn read_duties(b: &[u8], engines: u32) -> Result<Input, Refusal>
    ensures { outcome_of result ≡ input_read (with_engines engines (duties_from 2 (lines_of b.now))) }
{
    let mut services = [0; MOST_DUTIES];
    let mut periods = [0; MOST_DUTIES];
    let mut i = 0;
    let mut at = 0;
    // (d) No plainer over `split_inclusive`: whether a line is ended asks for its line feed again, and `i` is still wanted at the end.
    while at < b.len() {
        let rest = &b[at..];
        let end = find(rest, b'\n');
        if !line_good(rest, end, i) {
            return Err(Refusal::Input(i + 2));
        }
        let x = duty_read(&rest[..end]);
        services[i] = x.service;
        periods[i] = x.period;
        i += 1;
        at = at + end + 1;
    }
    let duties = i as u32;
    Ok(Input {
        engines,
        duties,
        services,
        periods,
    })
}

// Reads what the plan program was given: at most 4,096 bytes, the line of the engines, then the lines of the duties.
pub fn read_input(b: &[u8]) -> Result<Input, Refusal>
    ensures { outcome_of result ≡ input_read (input b.now) }
{
    if b.len() > MOST_INPUT {
        return Err(Refusal::Input(0));
    }
    let end = find(b, b'\n');
    if !first_line_good(b, end) {
        return Err(Refusal::Input(1));
    }
    let engines = engines_read(&b[..end]);
    read_duties(&b[end + 1..], engines)
}
