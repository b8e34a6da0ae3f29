// BT and CBJ: a trial looks back at the placed boats, in order.
#![tactic(auto)]

ghost use Rattle.std.specs.Prelude.{◌≡◌, ◌^◌, ◌<◌};
ghost use Rattle.methods.specs.BT.{looking_back};
ghost use Rattle.visits.specs.declared.Backward.{Backward};
ghost use Rattle.visits.specs.Visits.{Standing, Visits};
ghost use Rattle.looking_back.specs.Kept.{KeptBack};

use events::Counts;
use tables::FineTables;
use visits::{Look, Visited};
use words::Words;

// The slots of boat i from one on: each is checked against the placed boats that i is linked to, until one fails; each failing boat goes into the set.
pub fn visit(
    tables: &FineTables,
    i: usize,
    from: u64,
    with: u64,
    start: Counts,
    work: &[u64],
) -> Visited
    requires standing { Standing tables.now work.now i start }
    requires kept_back { KeptBack tables.now work.now i }
    requires with_bound { with < 2 ^ i }
    ensures { (backward : Backward) → Visits tables.now (looking_back tables.now) backward work.now i from with start result }
{
    let size = tables.size(i) as u64;
    let rows = tables.row_words();
    let first = work[Words::STARTS + i] as usize;
    let end = work[Words::ENDS + i] as usize;
    let mut set = with;
    let mut counts = start;
    for slot in from..size {
        let Some(tried) = counts.trial() else {
            return Visited::OutOfTrials(counts, set, slot);
        };
        counts = tried;
        let failing = 'boats: {
            for at in first..end {
                let link = work[Words::LINKS + at];
                let h = (link % 64) as usize;
                let row = rows[(link / 64 + work[h]) as usize];
                match visits::check_row(row, slot, counts) {
                    Look::Allowed(k) => counts = k,
                    Look::Forbidden(k) => {
                        counts = k;
                        break 'boats Some(h);
                    }
                    Look::OutOfChecks => {
                        let made = 1 + (counts.checks - tried.checks);
                        return Visited::OutOfChecks(counts, set, slot, made);
                    }
                }
            }
            None
        };
        let Some(h) = failing else {
            return Visited::Passed(counts, set, slot);
        };
        set = words::with_member(set, h);
    }
    Visited::Spent(counts, set)
}
