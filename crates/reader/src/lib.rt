// What is asked of a file: its tables, read and examined; and the desk's question, whether a plan is lawful by it. Both take any bytes and any lent memory, and ask nothing of their caller.
#![tactic(auto)]

ghost use Rattle.std.specs.Prelude.{◌≡◌};
ghost use Rattle.problem.specs.Tables.{tables};
ghost use Rattle.tables.specs.Examination.{examination};
ghost use Rattle.tables.specs.Replies.{examined_told};
ghost use Rattle.questions.specs.Questions.{lawful_question};
ghost use Rattle.questions.specs.Replies.{judged_told};
ghost use Rattle.files.specs.Rooms.{rooms};
ghost use Rattle.files.specs.Reader.{read_result, desk_result};
ghost use Rattle.reader.specs.Replies.{read_as};

use problem::{Problem, Refusal};

// What the examination says of the tables as read, or why the file was refused; and how much is written to each part.
#[derive(Drop)]
pub struct FileRead {
    pub found: Result<Problem, Refusal>,
    pub boats: usize,
    pub pair_bytes: usize,
    pub row_words: usize,
}

// Reads a file into lent memory and examines its tables, which stand there whatever the examination says.
pub fn read(file: &[u8], sizes: &mut [u8], pairs: &mut [u8], rows: &mut [u64]) -> FileRead
    ensures { read_as result (rooms sizes.new pairs.new rows.new) ≡ read_result file.now (rooms sizes.old pairs.old rows.old) }
{
    match loading::load(file, sizes, pairs, rows) {
        Err(why) => FileRead {
            found: Err(why),
            boats: 0,
            pair_bytes: 0,
            row_words: 0,
        },
        Ok(p) => {
            let pair_bytes = 2 * p.pairs;
            FileRead {
                found: tables::examine(&sizes[..p.boats], &pairs[..pair_bytes], &rows[..p.words]),
                boats: p.boats,
                pair_bytes,
                row_words: p.words,
            }
        }
    }
}

// Is the plan lawful by the tables of the file? They stand in the lent memory, whatever the answer is.
pub fn is_lawful_by(
    file: &[u8],
    plan: &[u8],
    sizes: &mut [u8],
    pairs: &mut [u8],
    rows: &mut [u64],
) -> Result<bool, Refusal>
    ensures result_value { judged_told result ≡ (desk_result file.now plan.now (rooms sizes.old pairs.old rows.old)).answer }
    ensures rows_after { rooms sizes.new pairs.new rows.new ≡ (desk_result file.now plan.now (rooms sizes.old pairs.old rows.old)).rooms }
{
    let p = loading::load(file, sizes, pairs, rows)?;
    questions::is_lawful(
        &sizes[..p.boats],
        &pairs[..2 * p.pairs],
        &rows[..p.words],
        plan,
    )
}
