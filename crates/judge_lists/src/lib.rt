// A duty's runs as they are kept for rule 16: the runs of a table are taken one after the other, and each duty's earlier runs stand in a
// list, sorted by first unit. As long as no run breaks the rule these share no unit with one another, so a run is held against two of them
// alone: the last that starts before it, and the first that does not.
// `as` stands where std has no `From` (32 bits to usize, usize to u64), or where it is proved that nothing is lost (d).
#![tactic(auto)]

ghost use Rattle.std.specs.Prelude.{◌≡◌, ◌+◌, ◌≤◌, ◌<◌, length, get_or, set};
ghost use Rattle.laws.proofs.Search.{Clear};
ghost use Rattle.laws.proofs.SortedLists.{Below, Between};
ghost use Rattle.paper.specs.Limits.{small, most_ticks, most_runs, most_duties};
ghost use Rattle.paper.specs.Statements.{Ranged};
ghost use Rattle.paper.specs.Words.{Table};
ghost use Rattle.table_laws.proofs.SortedRuns.{kept, starts_before, stops_after, twice_at, Rowed};
ghost use Rattle.judge_lists.specs.Listed.{Listed};

use paper::limits::{MOST_DUTIES, POINTERS};
use record_read::TableBytes;

// Each duty's runs in a sorted list. All lists stand in one array of pointers: at i that of run i, and behind the runs each duty's front. A
// pointer is 0 at the end of a list, else the next run's number and 1. A second array has, as a pointer, the last run of each duty: on a
// row the runs come by first unit, so a search mostly begins right before its end.
// Places in an array, and not boxes that own one another (a): nothing here takes memory from a heap. And numbers, 0 for none, and not
// Options (a): the theorems on sorted lists (laws, SortedLists) are said of such numbers.
#[derive(Drop)]
pub struct Lists {
    last: [u16; MOST_DUTIES],
    pointers: [u16; POINTERS],
}

// Whether a pointer leads to a run that starts before a unit.
fn starts_before(table: &TableBytes, pointer: usize, unit: u32) -> bool
    requires { pointer ≤ length table.now.runs }
    ensures { result ≡ starts_before table.now.runs pointer unit }
{
    pointer != 0 && table.run(pointer - 1).first < unit
}

// Whether a spot is that of a run which stops after a unit starts. A front is no run.
fn stops_after(table: &TableBytes, spot: usize, unit: u32) -> bool
    ensures { result ≡ stops_after table.now.runs spot unit }
{
    if spot >= table.runs() {
        return false;
    }
    let x = table.run(spot);
    unit < x.first + x.length
}

impl Lists {
    // The lists before the first run is taken.
    pub fn new() -> Lists
        ensures { (t : Table) → Ranged small t → Listed t 0 result }
    {
        Lists {
            last: [0; MOST_DUTIES],
            pointers: [0; POINTERS],
        }
    }

    // The pointer at a spot.
    fn pointer_at(&self, spot: usize) -> usize
        requires { spot < length self.now.pointers }
        ensures { result ≡ get_or self.now.pointers spot 0 }
    {
        usize::from(self.pointers[spot])
    }

    // A spot in the list of run k's duty from which its own spot can be searched: the duty's last run if that starts before run k, else the
    // front.
    fn start_of(&self, table: &TableBytes, k: usize) -> usize
        requires { (k < length table.now.runs) × Listed table.now k self.now }
        ensures { Below (kept table.now.runs) k result }
    {
        let y = table.run(k);
        let pointer = usize::from(self.last[y.duty as usize]);
        if starts_before(table, pointer, y.first) {
            return pointer - 1;
        }
        table.runs() + y.duty as usize
    }

    // The spot of run k in its duty's list: the last one that is before it.
    pub fn spot_of(&self, table: &TableBytes, k: usize) -> usize
        requires { (k < length table.now.runs) × Listed table.now k self.now }
        ensures { Between (kept table.now.runs) (length table.now.duties) k self.now.pointers result }
    {
        let first = table.run(k).first;
        let mut spot = self.start_of(table, k);
        while starts_before(table, self.pointer_at(spot), first) {
            spot = self.pointer_at(spot) - 1;
        }
        spot
    }

    // Whether run k breaks the rule, by its two neighbours in its duty's list: the one before it has not stopped as it starts, or the one
    // after it starts before it stops.
    pub fn is_twice(&self, table: &TableBytes, spot: usize, k: usize) -> bool
        requires { (table.now.ticks ≤ most_ticks) × Rowed table.now.runs × Clear (twice_at table.now.runs) k
            × Between (kept table.now.runs) (length table.now.duties) k self.now.pointers spot }
        ensures { result ≡ twice_at table.now.runs k }
    {
        let y = table.run(k);
        let unstopped = stops_after(table, spot, y.first);
        let started = starts_before(table, self.pointer_at(spot), y.first + y.length);
        unstopped | started
    }

    // Puts run k into its duty's list behind a spot: it leads to where the spot led, and the spot leads to it. It is the duty's last run.
    pub fn insert(&mut self, spot: usize, duty: usize, k: usize)
        requires { (k < most_runs) × (spot < length self.old.pointers) × (duty < most_duties) }
        ensures last { self.new.last ≡ set self.old.last duty (k + 1) }
        ensures pointers { self.new.pointers ≡ set (set self.old.pointers k (get_or self.old.pointers spot 0)) spot (k + 1) }
    {
        let next = self.pointers[spot];
        // `as`, since no number is lost (proved): `try_from` would have an error to answer for that never comes.
        let pointer = (k + 1) as u16;
        self.pointers[k] = next;
        self.pointers[spot] = pointer;
        self.last[duty] = pointer;
    }
}
