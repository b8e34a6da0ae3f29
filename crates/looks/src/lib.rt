// The looks that all other code makes at the tables.
#![tactic(auto)]

ghost use Rattle.std.specs.Prelude.{◌≡◌, ℕ, ◌*◌, ◌<◌, ◌≤◌, length};
ghost use Rattle.problem.specs.Tables.{size, listed, lower, higher, IsPlace, start, bit as bit_of};
ghost use Rattle.problem.specs.Rising.{Rising};

// How many slots a boat has.
pub fn size_of(sizes: &[u8], boat: usize) -> usize
    requires { boat < length sizes.now }
    ensures { (result ≡ size sizes.now boat) × (result < 256) }
{
    usize::from(sizes[boat])
}

// The lower boat of a listed pair.
pub fn lower_of(pairs: &[u8], pair: usize) -> usize
    requires { pair < listed pairs.now }
    ensures { (result ≡ lower pairs.now pair) × (result < 256) }
{
    usize::from(pairs[2 * pair])
}

// The higher boat of a listed pair.
pub fn higher_of(pairs: &[u8], pair: usize) -> usize
    requires { pair < listed pairs.now }
    ensures { (result ≡ higher pairs.now pair) × (result < 256) }
{
    usize::from(pairs[2 * pair + 1])
}

// The place of the pair of two boats among the listed pairs, which rise; none where it is not listed.
pub fn place_of(pairs: &[u8], low: usize, high: usize) -> Option<usize>
    requires { Rising pairs.now }
    ensures { IsPlace result pairs.now low high }
{
    for k in 0..pairs.len() / 2 {
        if lower_of(pairs, k) == low && higher_of(pairs, k) == high {
            return Some(k);
        }
    }
    None
}

// The word where the rows of a listed pair begin; for the number of pairs, the number of row words.
pub fn start_of(sizes: &[u8], pairs: &[u8], pair: usize) -> usize
    requires pairs_len_bound { length pairs.now ≤ 4032 }
    requires pair_bound { pair ≤ listed pairs.now }
    requires by_index { (k : ℕ) → k < pair → lower pairs.now k < length sizes.now }
    ensures { (result ≡ start sizes.now pairs.now pair) × (result ≤ 255 * pair) }
{
    let mut words: usize = 0;
    for k in 0..pair {
        words += size_of(sizes, lower_of(pairs, k));
    }
    words
}

// One bit of a row.
pub fn bit(word: u64, slot: usize) -> bool
    requires { slot < 64 }
    ensures { result ≡ bit_of word slot }
{
    (word >> slot) % 2 == 1
}
