// The boats to blame for what a live word lacks: those that struck a slot, in a word beside it.
ghost use Rattle.std.specs.Prelude.{◌≡◌, suc};
ghost use Rattle.words.specs.Places.{used, live_at, blame_at};
ghost use Rattle.words.specs.Layout.{first_pair, ChangedOnly};
ghost use Rattle.live_words.specs.Lives.{Blames};
ghost use Rattle.live_words.specs.Kept.{BlamesKept, Blaming};

use tables::FineTables;
use visits::Backward;
use words::Words;

// Beside the live word of each of boat i's pairs: whom the word before it blames, and boat i where it struck a slot.
fn blame_listed(tables: &FineTables, i: usize, work: &mut [u64])
    requires blaming { Blaming tables.now work.old i }
    requires blames { Blames tables.now work.old i }
    ensures blames_2 { Blames tables.now work.new (suc i) }
    ensures changed_only { ChangedOnly (blame_at (live_at (first_pair tables.now.pairs i))) used work.old work.new }
{
    let first = work[Words::STARTS + i] as usize;
    let end = work[Words::ENDS + i] as usize;
    for pair in first..end {
        let at = Words::LIVES + pair;
        let before = work[Words::PREVS + pair] as usize;
        let was = work[Words::BLAMES + before];
        let struck = work[before] != work[at];
        work[Words::BLAMES + at] = words::with_member_if(was, i, struck);
    }
}

// A slot of boat i has passed. Only a way back by sets asks whom to blame.
pub fn blame(backward: Backward, tables: &FineTables, i: usize, work: &mut [u64])
    requires blaming { Blaming tables.now work.old i }
    requires blames_kept { BlamesKept backward tables.now work.old i }
    ensures blames_kept_2 { BlamesKept backward tables.now work.new (suc i) }
    ensures changed_only { ChangedOnly (blame_at (live_at (first_pair tables.now.pairs i))) used work.old work.new }
{
    match backward {
        Backward::OneBack => {}
        Backward::BySets => blame_listed(tables, i, work),
    }
}
