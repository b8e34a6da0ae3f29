// The writer of a file: the examination, then 26, then the bytes. It takes any tables and any lent memory, and asks nothing of its caller.
#![tactic(auto)]

ghost use Rattle.std.specs.Prelude.{◌≡◌, ◌+◌, ◌*◌, length, get_or};
ghost use Rattle.problem.specs.Tables.{tables, listed};
ghost use Rattle.files.specs.Bytes.{bytes_of, joined};
ghost use Rattle.files.specs.File.{pair_record};
ghost use Rattle.files.specs.Writer.{write_answer, written_room};
ghost use Rattle.writer.specs.Writes.{Writes};
ghost use Rattle.writer.specs.Replies.{written_told};

use problem::Refusal;
use tables::FineTables;

// Words of the rows: eight bytes each, low byte first.
fn put_words(rows: &[u64], file: &mut [u8])
    requires { length file.old ≡ 8 * length rows.now }
    ensures { file.new ≡ joined (length rows.now) (λ a. bytes_of 8 (get_or rows.now a 0)) }
{
    for (k, row) in rows.iter().enumerate() {
        file[8 * k..8 * k + 8].copy_from_slice(&row.to_le_bytes());
    }
}

// The PRs, in memory that is just enough for them.
fn put_pairs(tables: &FineTables, file: &mut [u8])
    requires { length file.old ≡ 4 * listed tables.now.pairs + 8 * length tables.now.rows }
    ensures { file.new ≡ joined (listed tables.now.pairs) (pair_record tables.now) }
{
    let pairs = tables.pair_bytes();
    let mut at = 0;
    let mut start = 0;
    for k in 0..tables.pairs() {
        let slots = tables.size(tables.lower(k));
        let next = at + 4 + 8 * slots;
        file[at..at + 4].copy_from_slice(&[b'P', b'R', pairs[2 * k], pairs[2 * k + 1]]);
        put_words(
            &tables.row_words()[start..start + slots],
            &mut file[at + 4..next],
        );
        at = next;
        start += slots;
    }
}

// What the examination leaves of the writer's work: 26, or the file.
fn write_fine(tables: &FineTables, file: &mut [u8]) -> Result<usize, Refusal>
    ensures { Writes tables.now file.old result file.new }
{
    let pairs = tables.pairs();
    let front = 3 + tables.boats();
    let last = front + 4 * pairs + 8 * tables.row_words().len();
    if file.len() < last + 4 {
        return Err(Refusal::Room);
    }
    file[..3].copy_from_slice(&[b'S', b'Z', tables.boats() as u8]);
    copying::copy(tables.size_bytes(), &mut file[3..front]);
    put_pairs(tables, &mut file[front..last]);
    let [low, high] = (pairs as u16).to_le_bytes();
    file[last..last + 4].copy_from_slice(&[b'E', b'D', low, high]);
    Ok(last + 4)
}

// Writes the file of the tables into lent memory.
pub fn write(sizes: &[u8], pairs: &[u8], rows: &[u64], file: &mut [u8]) -> Result<usize, Refusal>
    ensures result_value { written_told result ≡ write_answer (tables sizes.now pairs.now rows.now) file.old }
    ensures file_after { file.new ≡ written_room (tables sizes.now pairs.now rows.now) file.old }
{
    let tables = FineTables::new(sizes, pairs, rows)?;
    write_fine(&tables, file)
}
