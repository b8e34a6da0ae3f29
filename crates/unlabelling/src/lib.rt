// The backward move: where a boat with no slot left goes.
#![tactic(auto)]

ghost use Rattle.std.specs.Prelude.{◌≡◌, ℕ, ◌^◌, ◌≤◌, ◌<◌, ◌||◌, length, take};
ghost use Rattle.problem.specs.Tables.{bit};
ghost use Rattle.methods.specs.ByPlan.{ahead_by_plan};
ghost use Rattle.words.specs.Places.{used, set_at};
ghost use Rattle.words.specs.Layout.{word};
ghost use Rattle.visits.specs.declared.Backward.TheVariants.{BySets};
ghost use Rattle.words.specs.Sets.{SetsBelow};
ghost use Rattle.moves.specs.declared.Moves.TheVariants.{LookingBack, Marking, LookingAhead};
ghost use Rattle.moves.specs.Memory.{Kept};
ghost use Rattle.unlabelling.specs.Unlabels.{Leaving, Unlabels};
ghost use Rattle.unlabelling.specs.Jumps.{steps_back, JumpsBack};

use tables::FineTables;
use visits::Backward;
use words::Words;

// Back by one boat; from boat 0: no plan.
fn step_back(i: usize) -> Option<usize>
    ensures { result ≡ steps_back i }
{
    i.checked_sub(1)
}

// Back to the deepest boat to blame, which takes the set over; nobody to blame: no plan.
fn jump_back(i: usize, blamed: u64, work: &mut [u64]) -> Option<usize>
    requires { (i < 64) × (used ≤ length work.old) × (blamed < 2 ^ i) × SetsBelow work.old i }
    ensures { JumpsBack work.old i blamed work.new result }
{
    if blamed == 0 {
        return None;
    }
    let h = words::deepest_of(blamed);
    let joined = words::handed_down(blamed, work[Words::SETS + h], h);
    storing::store_set(h, joined, work);
    Some(h)
}

// BT and CBJ.
pub fn unlabel_back(
    backward: Backward,
    tables: &FineTables,
    i: usize,
    work: &mut [u64],
) -> Option<usize>
    requires leaving { Leaving tables.now work.old i }
    requires kept { Kept (LookingBack backward) tables.now work.old i }
    ensures { Unlabels (LookingBack backward) tables.now work.old i work.new result }
{
    match backward {
        Backward::OneBack => step_back(i),
        Backward::BySets => jump_back(i, work[Words::SETS + i], work),
    }
}

// BM: back by one boat; the later boats' b is lowered.
pub fn unlabel_marked(tables: &FineTables, i: usize, work: &mut [u64]) -> Option<usize>
    requires leaving { Leaving tables.now work.old i }
    requires kept { Kept Marking tables.now work.old i }
    ensures { Unlabels Marking tables.now work.old i work.new result }
{
    let h = step_back(i)?;
    marks::lower(tables.boats(), i, h, work);
    Some(h)
}

// Whom FC-CBJ is to blame for boat i: its set, and those that struck slots of its.
fn to_blame(tables: &FineTables, i: usize, work: &[u64]) -> u64
    requires leaving { Leaving tables.now work.now i }
    requires kept { Kept (LookingAhead BySets) tables.now work.now i }
    ensures among { (j : ℕ) → bit result j ≡ (bit (word work.now (set_at i)) j || (ahead_by_plan tables.now).blamers tt (take i work.now) j) }
    ensures below { result < 2 ^ i }
{
    let last = work[Words::LASTS + i] as usize;
    work[Words::SETS + i] | work[Words::BLAMES + last]
}

// FC and FC-CBJ.
pub fn unlabel_ahead(
    backward: Backward,
    tables: &FineTables,
    i: usize,
    work: &mut [u64],
) -> Option<usize>
    requires leaving { Leaving tables.now work.old i }
    requires kept { Kept (LookingAhead backward) tables.now work.old i }
    ensures { Unlabels (LookingAhead backward) tables.now work.old i work.new result }
{
    match backward {
        Backward::OneBack => step_back(i),
        Backward::BySets => jump_back(i, to_blame(tables, i, work), work),
    }
}
