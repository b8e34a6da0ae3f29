// BM: a trial looks back only as far as its mark and the boat's b do not already tell.
#![tactic(auto)]

ghost use Rattle.std.specs.Prelude.{◌≡◌, ◌+◌, ◌-◌, ◌<◌, length, get_or};
ghost use Rattle.problem.specs.Tables.{bit};
ghost use Rattle.words.specs.Places.{mark_at};
ghost use Rattle.words.specs.Layout.{ChangedOnly};
ghost use Rattle.visits.specs.Visits.{Standing};
ghost use Rattle.marking.specs.Visits.{VisitsMarked};
ghost use Rattle.marks.specs.Kept.{KeptMarked};
ghost use Rattle.marking.specs.Looks.{looked_at};

use events::Counts;
use tables::FineTables;
use visits::{Look, Visited};
use words::Words;

// A look at a placed boat by its index word and the slot that it holds: an unlisted pair costs no check.
fn look_at(rows: &[u64], index: u64, held: u64, slot: u64, counts: Counts) -> Look
    requires slot_bound { slot < 64 }
    requires held_in_bounds { 0 < index → index - 1 + held < length rows.now }
    ensures { result ≡ looked_at index (bit (get_or rows.now (index - 1 + held) 0) slot) counts }
{
    if index == 0 {
        return Look::Allowed(counts);
    }
    let at = (index - 1 + held) as usize;
    visits::check_row(rows[at], slot, counts)
}

// The slots of boat i from one on. Where the mark does not tell that a slot fails, the boats from b on are looked at until one fails; the mark becomes the last boat looked at.
pub fn visit(tables: &FineTables, i: usize, from: u64, start: Counts, work: &mut [u64]) -> Visited
    requires standing { Standing tables.now work.old i start }
    requires kept_marked { KeptMarked tables.now work.old i }
    ensures visits_marked { VisitsMarked tables.now work.old i from start work.new result }
    ensures changed_only { ChangedOnly (mark_at i 0) (mark_at i 64) work.old work.new }
{
    let size = tables.size(i) as u64;
    let rows = tables.row_words();
    let row = words::row_at(i);
    let low = work[Words::LOWS + i];
    let mut counts = start;
    for slot in from..size {
        let Some(tried) = counts.trial() else {
            return Visited::OutOfTrials(counts, 0, slot);
        };
        counts = tried;
        let mark = Words::MARKS + 64 * i + (slot as usize);
        if low <= work[mark] {
            let failing = 'boats: {
                for h in low as usize..i {
                    match look_at(rows, work[row + h], work[h], slot, counts) {
                        Look::Allowed(k) => counts = k,
                        Look::Forbidden(k) => {
                            counts = k;
                            break 'boats Some(h);
                        }
                        Look::OutOfChecks => {
                            // Of this step the trial is made, and the checks since.
                            let made = 1 + (counts.checks - tried.checks);
                            return Visited::OutOfChecks(counts, 0, slot, made);
                        }
                    }
                }
                None
            };
            let Some(h) = failing else {
                // The boat before; at boat 0 the mark stays 0.
                work[mark] = i.saturating_sub(1) as u64;
                return Visited::Passed(counts, 0, slot);
            };
            work[mark] = h as u64;
        }
    }
    Visited::Spent(counts, 0)
}
