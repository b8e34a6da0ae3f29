// The slots of the later boats that the boats placed so far leave live: for each listed pair, those of its higher boat once its lower boat's trial has passed.
#![tactic(auto)]

ghost use Rattle.std.specs.Prelude.{◌≡◌, [], ◌-◌, ◌^◌, ◌≤◌, length};
ghost use Rattle.words.specs.Places.{alls, lives, used};
ghost use Rattle.words.specs.Layout.{ChangedOnly};
ghost use Rattle.live_words.specs.Lives.{Lives};

mod blaming;
mod slots;

pub use blaming::blame;
pub use slots::next_live;
use tables::FineTables;
use words::Words;

// The slots of a boat, all live.
fn all_slots(size: usize) -> u64
    requires { size ≤ 64 }
    ensures { result ≡ 2 ^ size - 1 }
{
    if size == 64 {
        u64::MAX
    } else {
        (1u64 << size) - 1
    }
}

// All slots of all boats: before the first trial all are live.
pub fn fill_slots(tables: &FineTables, work: &mut [u64])
    requires { used ≤ length work.old }
    ensures lives { Lives tables.now work.new [] 0 }
    ensures changed_only { ChangedOnly alls lives work.old work.new }
{
    for j in 0..tables.boats() {
        work[Words::ALLS + j] = all_slots(tables.size(j));
    }
}
