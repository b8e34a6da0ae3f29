// What a method is made of: the loop over its moves is proved once for all methods, and compiled for each.
#![tactic(auto)]

use events::Counts;
use labelling::Labelled;
use tables::FineTables;

mod ahead;
mod back;
mod marked;
mod way_back;

pub use ahead::LookingAhead;
pub use back::LookingBack;
pub use marked::Marking;
pub use way_back::{BySets, OneBack, WayBack};

pub trait Moving {
    ghost use Rattle.std.specs.Prelude.{◌≡◌, ◌<◌, ◌≤◌, length};
    ghost use Rattle.words.specs.Places.{used};
    ghost use Rattle.words.specs.Layout.{Zero};
    ghost use Rattle.visits.specs.Visits.{Standing};
    ghost use Rattle.moves.specs.declared.Moves.{Moves};
    ghost use Rattle.moves.specs.Memory.{Kept};
    ghost use Rattle.moves.specs.Prepared.{Prepared};
    ghost use Rattle.storing.specs.Stored.{kept_words};
    ghost use Rattle.labelling.specs.Labels.{Labels};
    ghost use Rattle.unlabelling.specs.Unlabels.{Leaving, Unlabels};

    // Which moves they are.
    ghost moves: { Moves };

    // What the first move finds in words that are 0.
    fn prepare(tables: &FineTables, work: &mut [u64])
        requires { (used ≤ length work.old) × Zero 0 used work.old }
        ensures { Prepared moves tables.now work.old work.new };

    // Forward: the slots of boat i from one on, until one passes.
    fn label(tables: &FineTables, i: usize, from: u64, start: Counts, work: &mut [u64]) -> Labelled
        requires standing { Standing tables.now work.old i start }
        requires kept { Kept moves tables.now work.old i }
        ensures { Labels moves tables.now work.old i from start work.new result };

    // Backward: where boat i, which has no slot left, goes; nowhere: no plan.
    fn unlabel(tables: &FineTables, i: usize, work: &mut [u64]) -> Option<usize>
        requires leaving { Leaving tables.now work.old i }
        requires kept { Kept moves tables.now work.old i }
        ensures { Unlabels moves tables.now work.old i work.new result };

    // The run has ended at a slot of boat i, with this set in hand.
    fn keep_set(i: usize, set: u64, work: &mut [u64])
        requires { (i < 64) × (used ≤ length work.old) }
        ensures { work.new ≡ kept_words moves work.old i set };
}
