// What a visit begins with and leaves in the words.
#![tactic(auto)]

ghost use Rattle.std.specs.Prelude.{◌≡◌, ◌≤◌, ◌<◌, length};
ghost use Rattle.words.specs.Places.{used};
ghost use Rattle.storing.specs.Stored.{passed_words, set_stored, set_begun_with};

use visits::Backward;
use words::Words;

// The set that a visit of boat i begins with: its own, where the way back goes by sets.
pub fn begun_set(backward: Backward, i: usize, work: &[u64]) -> u64
    requires { (i < 64) × (used ≤ length work.now) }
    ensures { result ≡ set_begun_with backward work.now i }
{
    match backward {
        Backward::OneBack => 0,
        Backward::BySets => work[Words::SETS + i],
    }
}

// Boat i keeps this set: it has no slot left, or takes the set over on the way back.
pub fn store_set(i: usize, set: u64, work: &mut [u64])
    requires { (i < 64) × (used ≤ length work.old) }
    ensures { work.new ≡ set_stored work.old i set }
{
    work[Words::SETS + i] = set;
}

// A slot of boat i has passed, with these members in its set.
pub fn store_passed(i: usize, slot: u64, members: u64, work: &mut [u64])
    requires { (i < 64) × (used ≤ length work.old) }
    ensures { work.new ≡ passed_words work.old i slot members }
{
    work[i] = slot;
    work[Words::SETS + i] = members;
    work[Words::NEXT_SET + i] = 0;
}
