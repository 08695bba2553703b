// The lines of a plan that tell what stands in a table: one for the plan, one for each duty and one for each run.
// `as` stands where std has no `From` (32 bits to usize, usize to u64), or where it is proved that nothing is lost (d).
#![tactic(auto)]

ghost use Rattle.std.specs.Prelude.{[], ◌∷◌, ◌+◌, ◌≤◌, length};
ghost use Rattle.paper.specs.Limits.{most_engines, most_runs};
ghost use Rattle.paper.specs.Limits.{duty_lines_room, run_lines_room, table_lines_room, chain_line_room, loads_line_room};
ghost use Rattle.paper.specs.Text.{print_line, chain_line, loads_word};
ghost use Rattle.paper.specs.Outcome.{Puts};
ghost use Rattle.table_lines.specs.Parts.{duty_lines, run_lines, table_lines};

use line_print::print_line;
use paper::Chain;
use record_read::TableBytes;

// The duties, one line each: number, service, period. The runs below have a loop of their own (c): tried as one function over a closure
// that answers a line's numbers, which the check does not cover, since the bound `Fn` names the length of that array.
fn print_duties(out: &mut [u8], table: &TableBytes) -> usize
    requires { duty_lines_room ≤ length out.old }
    ensures puts { Puts (duty_lines table.now) out.old out.new result }
    ensures upper_bound { result ≤ duty_lines_room }
{
    let count = table.duties();
    let mut at = 0;
    for i in 0..count {
        let x = table.duty(i);
        let numbers = [i as u64, u64::from(x.service), u64::from(x.period)];
        at += print_line(&mut out[at..], b"duty", &numbers);
    }
    at
}

// The runs, in table order: row, duty, first unit, length.
fn print_runs(out: &mut [u8], table: &TableBytes) -> usize
    requires { run_lines_room ≤ length out.old }
    ensures puts { Puts (run_lines table.now) out.old out.new result }
    ensures upper_bound { result ≤ run_lines_room }
{
    let count = table.runs();
    let mut at = 0;
    for k in 0..count {
        let x = table.run(k);
        let numbers = [
            u64::from(x.row.0),
            u64::from(x.duty),
            u64::from(x.first),
            u64::from(x.length),
        ];
        at += print_line(&mut out[at..], b"run", &numbers);
    }
    at
}

// What stands in the table: the plan, with its block length, engines and duties; the duties; the runs.
pub fn print_table(out: &mut [u8], table: &TableBytes) -> usize
    requires { table_lines_room ≤ length out.old }
    ensures puts { Puts (table_lines table.now) out.old out.new result }
    ensures upper_bound { result ≤ table_lines_room }
{
    let reading = table.reading();
    let plan = [
        u64::from(reading.block_length),
        u64::from(reading.engines),
        u64::from(reading.duties),
    ];
    let duties = print_line(out, b"plan", &plan);
    let runs = duties + print_duties(&mut out[duties..], table);
    runs + print_runs(&mut out[runs..], table)
}

// A chain: first row, length.
pub fn print_chain(out: &mut [u8], chain: Chain) -> usize
    requires { (chain.first.0 ≤ most_engines) × (chain.length ≤ most_engines + 1) × (chain_line_room ≤ length out.old) }
    ensures puts { Puts (chain_line chain) out.old out.new result }
    ensures upper_bound { result ≤ chain_line_room }
{
    let numbers = [u64::from(chain.first.0), u64::from(chain.length)];
    print_line(out, b"chain", &numbers)
}

// The loads: in block 0, in each later block.
pub fn print_loads(out: &mut [u8], first: u32, later: u32) -> usize
    requires { (first ≤ most_runs) × (later ≤ most_runs) × (loads_line_room ≤ length out.old) }
    ensures puts { Puts (print_line loads_word (first ∷ later ∷ [])) out.old out.new result }
    ensures upper_bound { result ≤ loads_line_room }
{
    let numbers = [u64::from(first), u64::from(later)];
    print_line(out, b"loads", &numbers)
}
