// The walk of a search: forward while a slot passes; where none is left, back as the method says.
#![tactic(auto)]

ghost use Rattle.std.specs.Prelude.{◌≡◌, ◌≤◌, ◌<◌, length};
ghost use Rattle.words.specs.Places.{used};
ghost use Rattle.ends.specs.declared.Ended.TheVariants.{Undecided};
ghost use Rattle.storing.specs.Stored.{kept_words};
ghost use Rattle.walk.specs.Walks.{Setting, Walked};

use ends::{Ended, Place};
use events::Counts;
use labelling::Labelled;
use moving::Moving;
use problem::Allowance;
use tables::FineTables;

// The words get the set in hand here, once a run, and not where a visit ends.
fn stopped<M: Moving>(
    which: Allowance,
    boat: usize,
    slot: u64,
    made: u64,
    set: u64,
    counts: Counts,
    work: &mut [u64],
) -> Ended
    requires { (boat < 64) × (used ≤ length work.old) }
    ensures value { result ≡ Undecided counts which (record { boat = boat; slot = slot; made = made }) }
    ensures work_after { work.new ≡ kept_words M.moves work.old boat set }
{
    M::keep_set(boat, set, work);
    Ended::Undecided(counts, which, Place { boat, slot, made })
}

// From any place: a boat, its next slot, and the counts reached.
pub fn walk<M: Moving>(
    tables: &FineTables,
    boat: usize,
    from: u64,
    start: Counts,
    work: &mut [u64],
) -> Ended
    requires setting { Setting M.moves tables.now work.old boat start }
    ensures { Walked M.moves tables.now work.old boat from start work.new result }
{
    let n = tables.boats();
    let mut i = boat;
    let mut slot = from;
    let mut counts = start;
    while i < n {
        match M::label(tables, i, slot, counts, work) {
            Labelled::Passed(k) => {
                i += 1;
                slot = 0;
                counts = k;
            }
            Labelled::Spent(k) => {
                let Some(h) = M::unlabel(tables, i, work) else {
                    return Ended::NoPlan(k);
                };
                slot = work[h] + 1;
                i = h;
                counts = k;
            }
            Labelled::OutOfChecks(k, set, at, made) => {
                return stopped::<M>(Allowance::Checks, i, at, made, set, k, work);
            }
            Labelled::OutOfTrials(k, set, at) => {
                return stopped::<M>(Allowance::Trials, i, at, 0, set, k, work);
            }
        }
    }
    Ended::Solved(counts)
}
