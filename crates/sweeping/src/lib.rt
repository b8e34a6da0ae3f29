// A trial's way over the later boats that are listed with it.
#![tactic(auto)]

ghost use Rattle.std.specs.Prelude.{◌≡◌, ◌≤◌, ◌<◌, length, take};
ghost use Rattle.problem.specs.Tables.{Tables, tables, boats};
ghost use Rattle.events.specs.Counts.{Fits};
ghost use Rattle.words.specs.Places.{used, live_at, blames};
ghost use Rattle.words.specs.Layout.{ChangedOnly, first_pair, Firsts};
ghost use Rattle.sweeping.specs.Sweeps.{Sweepable, Owns, SweepsTo};

use events::Counts;
use tables::FineTables;
use words::Words;

// A boat's own pairs, from the first up to the end; where their rows begin, and how many each has.
#[derive(Clone, Copy)]
pub struct Own {
    pub first: usize,
    pub end: usize,
    pub row: u64,
    pub size: usize,
}

// They are looked up once a visit.
pub fn own_pairs(sizes: &[u8], pairs: &[u8], rows: &[u64], i: usize, work: &[u64]) -> Own
    ghost t: { Tables }
    requires rows_value { tables sizes.now pairs.now rows.now ≡ t }
    requires i_bound { (i < boats t) × (boats t ≤ 64) × (used ≤ length work.now) }
    requires firsts { Firsts t work.now }
    ensures { Owns t i result }
{
    Own {
        first: work[Words::STARTS + i] as usize,
        end: work[Words::ENDS + i] as usize,
        row: work[Words::ROW_STARTS + i],
        size: looks::size_of(sizes, i),
    }
}

// How it ends: no boat emptied, the pair whose higher boat is emptied, or the end of the run.
#[derive(Drop)]
pub enum Swept {
    Clear(Counts),
    Emptied(Counts, usize),
    OutOfChecks(Counts),
}

// One check for each live slot of each later boat listed with boat i. What stays is the pair's live word: it counts only once the slot has passed.
pub fn sweep(
    tables: &FineTables,
    i: usize,
    own: Own,
    slot: u64,
    start: Counts,
    work: &mut [u64],
) -> Swept
    requires sweepable { Sweepable tables.now work.old i slot }
    requires owns { Owns tables.now i own }
    requires fits { Fits start }
    ensures sweeps_to { SweepsTo tables.now work.old (take i work.old) slot start work.new result }
    ensures changed_only { ChangedOnly (live_at (first_pair tables.now.pairs i)) blames work.old work.new }
{
    let rows = tables.row_words();
    let mut at = (own.row + slot) as usize;
    let mut counts = start;
    for pair in own.first..own.end {
        let live = work[work[Words::PREVS + pair] as usize];
        let Some(k) = counts.check_each(u64::count_ones(live) as u64) else {
            return Swept::OutOfChecks(counts.all_checks());
        };
        counts = k;
        let stays = live & rows[at];
        work[Words::LIVES + pair] = stays;
        if u64::count_ones(stays) == 0 {
            return Swept::Emptied(counts, pair);
        }
        at += own.size;
    }
    Swept::Clear(counts)
}
