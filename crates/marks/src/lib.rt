// BM's marks: what the words hold of them, and b lowered on going back.
#![tactic(auto)]

ghost use Rattle.std.specs.Prelude.{◌≡◌, ◌≤◌, ◌<◌, length};
ghost use Rattle.methods.specs.BM.{lowered};
ghost use Rattle.words.specs.Places.{used, low_at, lows_end};
ghost use Rattle.words.specs.Layout.{ChangedOnly, Zero};
ghost use Rattle.marks.specs.Marks.{marks_of, NeverRises};

use words::Words;

// Going back from boat i to h, the boat before: b of i becomes h, and that of each later boat h where it was greater. As b never rises after i, the first that is not greater ends it.
pub fn lower(n: usize, i: usize, h: usize, work: &mut [u64])
    requires i_lt_n { (i < n) × (n ≤ 64) × (h < 64) × (used ≤ length work.old) }
    requires zero { Zero (low_at n) lows_end work.old × NeverRises work.old i }
    ensures work_after { marks_of work.new ≡ lowered (marks_of work.old) i h }
    ensures changed_only { ChangedOnly (low_at i) (low_at n) work.old work.new }
{
    work[Words::LOWS + i] = h as u64;
    for j in i + 1..n {
        if work[Words::LOWS + j] <= h as u64 {
            return;
        }
        work[Words::LOWS + j] = h as u64;
    }
}
