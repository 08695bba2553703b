// A plan as text: a line for the plan, one for each duty, run and chain, and one for the loads.
#![tactic(auto)]

ghost use Rattle.std.specs.Prelude.{◌≤◌, length};
ghost use Rattle.paper.specs.Limits.{text_room};
ghost use Rattle.paper.specs.Text.{plan_text, text_for};
ghost use Rattle.paper.specs.Outcome.{Puts, Writes};
ghost use Rattle.paper.specs.Builder.{fitted};

use chain_lines::print_rotation;
use judge::rule_on;
use paper::Refusal;
use paper::limits::TEXT_ROOM;
use record_write::put_bytes;
use row_edges::Edges;
use table_lines::print_table;
use table_tally::Accepted;

// The text of a judged table's plan.
pub fn print_text(out: &mut [u8], accepted: &Accepted) -> usize
    requires { text_room ≤ length out.old }
    ensures puts { Puts (plan_text accepted.now) out.old out.new result }
    ensures upper_bound { result ≤ text_room }
{
    let at = print_table(out, accepted.table());
    at + print_rotation(&mut out[at..], accepted)
}

// The text of a judged table, if the buffer has the room. It is made apart, since a buffer that is too short keeps its bytes.
fn fit_text(out: &mut [u8], accepted: &Accepted) -> Result<usize, Refusal>
    ensures { Writes (fitted (length out.old) (plan_text accepted.now)) result out.old out.new }
{
    let mut text = [0; TEXT_ROOM];
    let n = print_text(&mut text, accepted);
    if out.len() < n {
        return Err(Refusal::Room(n));
    }
    put_bytes(out, &text[..n]);
    Ok(n)
}

// The text of the table in any bytes: 10 to 17 if they are refused, then 8 if the text is longer than the buffer.
pub fn plan_text(table: &[u8], out: &mut [u8]) -> Result<usize, Refusal>
    ensures { Writes (text_for table.now (length out.old)) result out.old out.new }
{
    let mut edges = Edges::new();
    let accepted = rule_on(table, &mut edges)?;
    fit_text(out, &accepted)
}
