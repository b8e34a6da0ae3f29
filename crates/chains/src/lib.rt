// For looking ahead: each boat's own pairs, and where the live word before each pair stands, found once a run.
#![tactic(auto)]

ghost use Rattle.std.specs.Prelude.{◌≡◌, ◌+◌, ◌≤◌, length};
ghost use Rattle.words.specs.Places.{starts, row_starts_end, lasts, marks, used};
ghost use Rattle.words.specs.Layout.{first_pair, ChangedOnly, Firsts, Chained};

use tables::FineTables;
use words::Words;

// The end of the pairs that have a boat as their lower one, from the first of them on.
fn pairs_end(tables: &FineTables, from: usize, boat: usize) -> usize
    requires { from ≡ first_pair tables.now.pairs boat }
    ensures { (from ≤ result) × (result ≡ first_pair tables.now.pairs (boat + 1)) }
{
    let count = tables.pairs();
    for k in from..count {
        if tables.lower(k) != boat {
            return k;
        }
    }
    count
}

// Each boat's first pair as the lower boat, and where its rows begin.
pub fn index_ahead(tables: &FineTables, work: &mut [u64])
    requires used_in_bounds { used ≤ length work.old }
    ensures firsts { Firsts tables.now work.new }
    ensures changed_only { ChangedOnly starts row_starts_end work.old work.new }
{
    let n = tables.boats();
    let mut k: usize = 0;
    let mut start: usize = 0;
    for i in 0..n {
        work[Words::STARTS + i] = k as u64;
        work[Words::ROW_STARTS + i] = start as u64;
        let next = pairs_end(tables, k, i);
        start += (next - k) * tables.size(i);
        k = next;
    }
    work[Words::STARTS + n] = k as u64;
}

// Where the live word before each pair stands, and each boat's last.
pub fn chain_ahead(tables: &FineTables, work: &mut [u64])
    requires used_in_bounds { used ≤ length work.old }
    ensures chained { Chained tables.now work.new }
    ensures changed_only { ChangedOnly lasts marks work.old work.new }
{
    for j in 0..tables.boats() {
        work[Words::LASTS + j] = (Words::ALLS + j) as u64;
    }
    for k in 0..tables.pairs() {
        let last = Words::LASTS + tables.higher(k);
        work[Words::PREVS + k] = work[last];
        work[last] = (Words::LIVES + k) as u64;
    }
}
