// The form of a table's bytes, fault 10: each record stands in its place and is good. Offsets are computed, so a form is two
// searches: the first bad duty record, and the first record that is no good run.
#![tactic(auto)]

ghost use Rattle.std.specs.Prelude.{◌≡◌, ◌≤◌};
ghost use Rattle.paper.specs.Limits.{small, most_runs};
ghost use Rattle.paper.specs.Bytes.{duties_in, bad_duty, good_runs, read_table};
ghost use Rattle.table_form.specs.FormAs.{form_as};

use paper::Fault;
use paper::limits::{END_LENGTH, MOST_RUNS};
use record_read::{TableBytes, duty_place};
use record_tests::Headed;
use search::lowest;

// The first duty record that is no good, or how many there are.
fn bad_duty(bytes: &Headed) -> usize
    ensures { result ≡ bad_duty small bytes.now (duties_in small bytes.now) }
{
    lowest(0, bytes.duties(), |d| !bytes.duty_good(d))
}

// How many good runs stand after the duties, at most as many as a table may have.
fn good_runs(bytes: &Headed) -> usize
    ensures told { result ≡ good_runs small bytes.now (duties_in small bytes.now) }
    ensures few { result ≤ most_runs }
{
    lowest(0, MOST_RUNS, |k| !bytes.run_good(k))
}

// The form of any bytes: the table in them, or the first record that is no good.
pub fn form_of(b: &[u8]) -> Result<TableBytes<'_>, Fault>
    ensures { form_as result ≡ read_table b.now }
{
    let Some(bytes) = Headed::new(b) else {
        return Err(Fault::Form(0));
    };
    let d = bad_duty(&bytes);
    if d < bytes.duties() {
        return Err(Fault::Form(duty_place(d)));
    }
    let runs = good_runs(&bytes);
    let at = bytes.run_place(runs);
    if !bytes.end_good(runs) {
        return Err(Fault::Form(at));
    }
    let end = at + END_LENGTH;
    if end < b.len() {
        return Err(Fault::Form(end));
    }
    Ok(TableBytes::new(b, bytes.reading(runs)))
}
