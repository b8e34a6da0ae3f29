// For looking back: where the rows of each two boats' pair begin, found once a run.
#![tactic(auto)]

ghost use Rattle.std.specs.Prelude.{◌≡◌, ℕ, ◌+◌, ◌≤◌, ◌<◌, length};
ghost use Rattle.problem.specs.Tables.{boats};
ghost use Rattle.problem.specs.Sane.{Sane};
ghost use Rattle.words.specs.Places.{tri, starts, index, marks, link_at, index_at, used};
ghost use Rattle.words.specs.Layout.{word, index_of, ChangedOnly, Zero, Indexed};
ghost use Rattle.words.specs.Links.{Links, Linked};

use tables::FineTables;
use words::Words;

// For BM: at each two boats' word, one more than where the rows of their pair begin. An unlisted pair's word stays 0.
#[tactic(auto, using(words::proofs::Triangle::tri_small))]
pub fn index_back(tables: &FineTables, work: &mut [u64])
    requires used_in_bounds { (used ≤ length work.old) × Zero index marks work.old }
    ensures indexed { Indexed tables.now work.new }
    ensures changed_only { ChangedOnly index marks work.old work.new }
{
    let mut start: usize = 0;
    for k in 0..tables.pairs() {
        let low = tables.lower(k);
        let at = words::row_at(tables.higher(k)) + low;
        work[at] = (start as u64) + 1;
        start += tables.size(low);
    }
}

// The index row of boat i becomes its links, which go from one place on. They are never more than the words passed, so no word is lost that is still to be read.
#[tactic(auto, using(words::proofs::Triangle::tri_small))]
fn link_boat(tables: &FineTables, i: usize, from: usize, work: &mut [u64]) -> usize
    requires sane { Sane tables.now }
    requires i_bound { (i < boats tables.now) × (from ≤ tri i) × (used ≤ length work.old) }
    requires by_index { (h : ℕ) → h < i → word work.old (index_at h i) ≡ index_of tables.now h i }
    ensures upper_bound { (result ≤ from + i) × Links tables.now work.new i i 0 from result }
    ensures changed_only { ChangedOnly (link_at from) (index_at i i) work.old work.new }
{
    let row = words::row_at(i);
    let mut to = from;
    for h in 0..i {
        let index = work[row + h];
        if index != 0 {
            work[Words::LINKS + to] = (index - 1) * 64 + (h as u64);
            to += 1;
        }
    }
    to
}

// For BT and CBJ: each boat's links, and where they begin.
pub fn link_back(tables: &FineTables, work: &mut [u64])
    requires used_in_bounds { (used ≤ length work.old) × Zero index marks work.old }
    ensures linked { Linked tables.now work.new }
    ensures changed_only { ChangedOnly starts marks work.old work.new }
{
    index_back(tables, work);
    work[Words::STARTS] = 0;
    let mut at: usize = 0;
    for i in 0..tables.boats() {
        at = link_boat(tables, i, at, work);
        work[Words::ENDS + i] = at as u64;
    }
}
