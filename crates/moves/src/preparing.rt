// The words as a search begins with them: what the forward move looks up, so that it searches for no pair.
ghost use Rattle.std.specs.Prelude.{◌≡◌, ◌≤◌, length};
ghost use Rattle.words.specs.Places.{used};
ghost use Rattle.words.specs.Layout.{Zero};
ghost use Rattle.visits.specs.declared.Backward.{Backward};
ghost use Rattle.moves.specs.declared.Moves.TheVariants.{LookingBack, Marking, LookingAhead};
ghost use Rattle.moves.specs.Prepared.{Prepared};

use tables::FineTables;

// The links of each boat.
pub fn prepare_back(tables: &FineTables, work: &mut [u64])
    requires { (used ≤ length work.old) × Zero 0 used work.old }
    ensures { (backward : Backward) → Prepared (LookingBack backward) tables.now work.old work.new }
{
    index::link_back(tables, work)
}

// The index of pairs.
pub fn prepare_marked(tables: &FineTables, work: &mut [u64])
    requires { (used ≤ length work.old) × Zero 0 used work.old }
    ensures { Prepared Marking tables.now work.old work.new }
{
    index::index_back(tables, work)
}

// Each boat's pairs, where the live words stand, and all slots live.
pub fn prepare_ahead(tables: &FineTables, work: &mut [u64])
    requires { (used ≤ length work.old) × Zero 0 used work.old }
    ensures { (backward : Backward) → Prepared (LookingAhead backward) tables.now work.old work.new }
{
    tables.keep_every_rule();
    chains::index_ahead(tables, work);
    chains::chain_ahead(tables, work);
    live_words::fill_slots(tables, work);
}
