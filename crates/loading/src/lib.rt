// The second pass over the bytes of a file: its tables go to lent memory that is long enough for them.
#![tactic(auto)]

ghost use Rattle.std.specs.Prelude.{◌≡◌, ◌++◌, ◌+◌, ◌*◌, ◌≤◌, length, take, drop};
ghost use Rattle.files.specs.Bytes.{words_of};
ghost use Rattle.loading.specs.Loading.{Loads, Fitting, Filled};

use problem::{Problem, Refusal};

// Words of the file: eight bytes each, low byte first.
fn fill_rows(words: &[u8], rows: &mut [u64])
    requires { length words.now ≡ 8 * length rows.old }
    ensures { rows.new ≡ words_of (length rows.old) words.now }
{
    for (k, word) in words.as_chunks::<8>().0.iter().enumerate() {
        rows[k] = u64::from_le_bytes(*word);
    }
}

// From the first mark after the SZ on, in a file that is read: no byte is tested again but the marks.
fn fill_pairs(file: &[u8], boats: usize, pairs: &mut [u8], rows: &mut [u64])
    requires { Fitting file.now boats (length pairs.old) (length rows.old) }
    ensures { Filled file.now boats pairs.old rows.old pairs.new rows.new }
{
    let mut at = 3 + boats;
    let mut pair = 0;
    let mut word = 0;
    while scanning::is_mark(file, at, b"PR") {
        let lower = usize::from(file[at + 2]);
        let slots = usize::from(file[3 + lower]);
        let next = at + 4 + 8 * slots;
        pairs[2 * pair..2 * pair + 2].copy_from_slice(&file[at + 2..at + 4]);
        fill_rows(&file[at + 4..next], &mut rows[word..word + slots]);
        at = next;
        pair += 1;
        word += slots;
    }
}

// The tables of a file go to the lent memory: 21 to 25 by their places, then 26; where one of these is given nothing is written.
pub fn load(
    file: &[u8],
    sizes: &mut [u8],
    pairs: &mut [u8],
    rows: &mut [u64],
) -> Result<Problem, Refusal>
    ensures { Loads file.now sizes.old pairs.old rows.old result sizes.new pairs.new rows.new }
{
    let found = scanning::scan(file)?;
    if sizes.len() < found.boats || pairs.len() / 2 < found.pairs || rows.len() < found.words {
        return Err(Refusal::Room);
    }
    copying::copy(&file[3..3 + found.boats], &mut sizes[..found.boats]);
    fill_pairs(file, found.boats, pairs, rows);
    Ok(found)
}
