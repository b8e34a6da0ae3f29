// Number 7: the row words.
ghost use Rattle.std.specs.Prelude.{◌≡◌, ◌-◌, ◌^◌, ◌≤◌, leb, length, get_or};
ghost use Rattle.problem.specs.Lowest.{IsLowestFrom};
ghost use Rattle.problem.specs.Tables.{Tables, tables};
ghost use Rattle.tables.specs.Examination.{bad_word};
ghost use Rattle.tables.specs.Framed.{Framed};
ghost use Rattle.tables.specs.Tests.{each};
ghost use Rattle.tables.specs.Ways.{IsFirst};

use problem::{Problem, Refusal};

// A word has a bit at or above a size.
fn is_wide(word: u64, size: usize) -> bool
    requires { size ≤ 64 }
    ensures { result ≡ leb (2 ^ size) word }
{
    if size == Problem::SLOTS {
        return false;
    }
    0 < word >> size
}

// Of the words from one place up to another, the lowest with a bit at or above a size, if there is one.
fn first_wide_word(rows: &[u64], from: usize, to: usize, size: usize) -> Option<usize>
    requires from_le_to { from ≤ to }
    requires to_in_bounds { to ≤ length rows.now }
    requires size_bound { size ≤ 64 }
    ensures { IsLowestFrom result from (to - from) (λ w. leb (2 ^ size) (get_or rows.now w 0)) }
{
    for w in from..to {
        if is_wide(rows[w], size) {
            return Some(w);
        }
    }
    None
}

// No word has a bit at or above its higher boat's size; or the lowest word that has.
pub fn all_good(sizes: &[u8], pairs: &[u8], rows: &[u64]) -> Result<(), Refusal>
    ghost t: { Tables }
    requires rows_value { tables sizes.now pairs.now rows.now ≡ t }
    requires framed { Framed t }
    ensures { IsFirst result (each 7 (length t.rows) (bad_word t)) }
{
    let mut from: usize = 0;
    for k in 0..pairs.len() / 2 {
        let to = from + looks::size_of(sizes, looks::lower_of(pairs, k));
        let size = looks::size_of(sizes, looks::higher_of(pairs, k));
        if let Some(word) = first_wide_word(rows, from, to, size) {
            return Err(Refusal::RowBit(word));
        }
        from = to;
    }
    Ok(())
}
