// FC and FC-CBJ: a trial looks ahead at the later boats listed with it.
#![tactic(auto)]

ghost use Rattle.std.specs.Prelude.{◌≡◌, ◌^◌, ◌<◌};
ghost use Rattle.methods.specs.ByPlan.{ahead_by_plan};
ghost use Rattle.words.specs.Places.{live_at, blames};
ghost use Rattle.words.specs.Layout.{ChangedOnly, first_pair};
ghost use Rattle.visits.specs.Visits.{Standing, Visits};
ghost use Rattle.live_words.specs.Kept.{KeptAhead};
ghost use Rattle.looking_ahead.specs.Ahead.{LivesAfter};

use events::Counts;
use sweeping::Swept;
use tables::FineTables;
use visits::{Backward, Visited};
use words::Words;

// The live slots of boat i from one on. With conflict sets, a slot that empties a later boat puts that boat's blamers into the set.
pub fn visit(
    backward: Backward,
    tables: &FineTables,
    i: usize,
    from: u64,
    with: u64,
    start: Counts,
    work: &mut [u64],
) -> Visited
    requires standing { Standing tables.now work.old i start }
    requires kept_ahead { KeptAhead backward tables.now work.old i }
    requires with_bound { with < 2 ^ i }
    ensures visits { Visits tables.now (ahead_by_plan tables.now) backward work.old i from with start result }
    ensures lives_after { LivesAfter tables.now work.old i work.new result }
    ensures changed_only { ChangedOnly (live_at (first_pair tables.now.pairs i)) blames work.old work.new }
{
    let live = work[work[Words::LASTS + i] as usize];
    let (sizes, pairs, rows) = (tables.size_bytes(), tables.pair_bytes(), tables.row_words());
    let own = sweeping::own_pairs(sizes, pairs, rows, i, work);
    let size = own.size as u64;
    let mut slot = live_words::next_live(live, from);
    let mut set = with;
    let mut counts = start;
    while slot < size {
        let Some(k) = counts.trial() else {
            return Visited::OutOfTrials(counts, set, slot);
        };
        counts = k;
        match sweeping::sweep(tables, i, own, slot, counts, work) {
            Swept::Clear(k) => return Visited::Passed(k, set, slot),
            Swept::Emptied(k, pair) => {
                counts = k;
                match backward {
                    Backward::OneBack => {}
                    Backward::BySets => {
                        // of the word before: boat i's own strikes are put back
                        let before = work[Words::PREVS + pair] as usize;
                        set |= work[Words::BLAMES + before];
                    }
                }
            }
            Swept::OutOfChecks(k) => {
                let made = 1 + (k.checks - counts.checks);
                return Visited::OutOfChecks(k, set, slot, made);
            }
        }
        slot = live_words::next_live(live, slot + 1);
    }
    Visited::Spent(counts, set)
}
