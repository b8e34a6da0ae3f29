// The forward move: the slots of a boat from one on, until one passes. The words then hold it.
#![tactic(auto)]

ghost use Rattle.std.specs.Prelude.{◌≡◌};
ghost use Rattle.visits.specs.Visits.{Standing};
ghost use Rattle.moves.specs.declared.Moves.TheVariants.{LookingBack, Marking, LookingAhead};
ghost use Rattle.moves.specs.Memory.{Kept};
ghost use Rattle.labelling.specs.Labels.{Labels};

use events::Counts;
use tables::FineTables;
use visits::{Backward, Visited};

// What the forward move of every method answers. Where the run ends, the set in hand, which is not stored yet, and the slot; inside its step, how many of the step's events are made.
#[derive(Drop)]
pub enum Labelled {
    Passed(Counts),
    Spent(Counts),
    OutOfChecks(Counts, u64, u64, u64),
    OutOfTrials(Counts, u64, u64),
}

pub fn label_back(
    backward: Backward,
    tables: &FineTables,
    i: usize,
    from: u64,
    start: Counts,
    work: &mut [u64],
) -> Labelled
    requires standing { Standing tables.now work.old i start }
    requires kept { Kept (LookingBack backward) tables.now work.old i }
    ensures { Labels (LookingBack backward) tables.now work.old i from start work.new result }
{
    let with = storing::begun_set(backward, i, work);
    match looking_back::visit(tables, i, from, with, start, work) {
        Visited::Passed(k, set, slot) => {
            storing::store_passed(i, slot, set, work);
            Labelled::Passed(k)
        }
        Visited::Spent(k, set) => {
            storing::store_set(i, set, work);
            Labelled::Spent(k)
        }
        Visited::OutOfChecks(k, set, slot, made) => Labelled::OutOfChecks(k, set, slot, made),
        Visited::OutOfTrials(k, set, slot) => Labelled::OutOfTrials(k, set, slot),
    }
}

// The marks are the visit's own.
pub fn label_marked(
    tables: &FineTables,
    i: usize,
    from: u64,
    start: Counts,
    work: &mut [u64],
) -> Labelled
    requires standing { Standing tables.now work.old i start }
    requires kept { Kept Marking tables.now work.old i }
    ensures { Labels Marking tables.now work.old i from start work.new result }
{
    match marking::visit(tables, i, from, start, work) {
        Visited::Passed(k, _, slot) => {
            work[i] = slot;
            Labelled::Passed(k)
        }
        Visited::Spent(k, _) => Labelled::Spent(k),
        Visited::OutOfChecks(k, set, slot, made) => Labelled::OutOfChecks(k, set, slot, made),
        Visited::OutOfTrials(k, set, slot) => Labelled::OutOfTrials(k, set, slot),
    }
}

// The live words are the visit's own; whom they blame is written once a slot has passed.
pub fn label_ahead(
    backward: Backward,
    tables: &FineTables,
    i: usize,
    from: u64,
    start: Counts,
    work: &mut [u64],
) -> Labelled
    requires standing { Standing tables.now work.old i start }
    requires kept { Kept (LookingAhead backward) tables.now work.old i }
    ensures { Labels (LookingAhead backward) tables.now work.old i from start work.new result }
{
    let with = storing::begun_set(backward, i, work);
    match looking_ahead::visit(backward, tables, i, from, with, start, work) {
        Visited::Passed(k, set, slot) => {
            storing::store_passed(i, slot, set, work);
            live_words::blame(backward, tables, i, work);
            Labelled::Passed(k)
        }
        Visited::Spent(k, set) => {
            storing::store_set(i, set, work);
            Labelled::Spent(k)
        }
        Visited::OutOfChecks(k, set, slot, made) => Labelled::OutOfChecks(k, set, slot, made),
        Visited::OutOfTrials(k, set, slot) => Labelled::OutOfTrials(k, set, slot),
    }
}
