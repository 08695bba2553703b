// The plan program: a duty set on standard input, its plan or `refused NUMBER PLACE` on standard output.
// `as` stands where std has no `From` (32 bits to usize, usize to u64), or where it is proved that nothing is lost (d).
#![tactic(auto)]

ghost use Rattle.std.specs.Prelude.{◌≤◌, length};
ghost use Rattle.paper.specs.Limits.{text_room};
ghost use Rattle.paper.specs.Outcome.{Puts};
ghost use Rattle.paper.specs.Builder.{plan};
ghost use Rattle.paper.specs.Rules.{accepted};
ghost use Rattle.paper.specs.Text.{printed, program};
ghost use Rattle.plan_input.specs.AsWanted.{wanted_in, HasRoom};

use builder::build;
use judge::rule_on;
use line_print::print_refused;
use paper::limits::{MOST_INPUT, MOST_TABLE, TEXT_ROOM};
use paper::{Input, Refusal};
use plan_input::read_input;
use plan_text::print_text;
use row_edges::Edges;
use std::io;
use std::io::{Read, Write};

// The plan in table bytes, or their refusal.
fn print_plan(out: &mut [u8], table: &[u8]) -> usize
    requires { text_room ≤ length out.old }
    ensures { Puts (printed (accepted table.now)) out.old out.new result }
{
    let mut edges = Edges::new();
    match rule_on(table, &mut edges) {
        Ok(accepted) => print_text(out, &accepted),
        Err(fault) => print_refused(out, Refusal::Table(fault)),
    }
}

// The plan of what was read, in blocks of the greatest length, or the builder's refusal. Every table has room in as many bytes as the
// longest has.
fn print_planned(out: &mut [u8], given: Input) -> usize
    requires text_room_in_bounds { text_room ≤ length out.old }
    requires has_room { HasRoom given }
    ensures { Puts (printed (plan 0 (wanted_in given))) out.old out.new result }
{
    let n = given.duties as usize;
    let services = given.services;
    let periods = given.periods;
    let mut table = [0; MOST_TABLE];
    match build(0, given.engines, &services[..n], &periods[..n], &mut table) {
        Ok(size) => print_plan(out, &table[..size]),
        Err(why) => print_refused(out, why),
    }
}

// Runs the program on what it reads. What it prints is over the front of the buffer; the answer is its length.
fn run_plan(input: &[u8], out: &mut [u8; TEXT_ROOM]) -> usize
    ensures { Puts (program input.now) out.old out.new result }
{
    match read_input(input) {
        Ok(given) => print_planned(out, given),
        Err(why) => print_refused(out, why),
    }
}

// Reads, runs and prints. One byte more than the longest input is read, so that a longer one is seen; each read gives a byte or more until
// the input ends. A read that fails ends the program with the error. Output that is lost is told on standard error, and the status stays 0.
fn main(rt: HostRuntime) -> io::Result<()> {
    let mut input = [0u8; MOST_INPUT + 1];
    let mut n = 0;
    for _ in 0..=MOST_INPUT {
        let more = rt.stdin().read(&mut input[n..])?;
        if more == 0 {
            break;
        }
        n += more;
    }
    let mut out = [0u8; TEXT_ROOM];
    let length = run_plan(&input[..n], &mut out);
    match rt.stdout().write_all(&out[..length]) {
        Ok(()) => Ok(()),
        Err(_) => rt
            .stderr()
            .write_all(b"plan: the output could not be written\n"),
    }
}
