// A search from the beginning: the words made ready, and the walk from the first slot of the first boat.
#![tactic(auto)]

ghost use Rattle.std.specs.Prelude.{◌≡◌, ◌≤◌, length};
ghost use Rattle.events.specs.Counts.{Fits};
ghost use Rattle.words.specs.Places.{used};
ghost use Rattle.searching.specs.Searched.{Searched};

use ends::Ended;
use events::Counts;
use moving::Moving;
use tables::FineTables;

// The words are cleared first.
// A function for each method, and not one of all of them: they would leave one another too few registers.
#[inline(never)]
pub fn search<M: Moving>(tables: &FineTables, start: Counts, work: &mut [u64]) -> Ended
    requires used_in_bounds { used ≤ length work.old }
    requires fits { Fits start }
    ensures { Searched M.moves tables.now work.old start work.new result }
{
    words::clear(work);
    M::prepare(tables, work);
    walk::walk::<M>(tables, 0, 0, start, work)
}
