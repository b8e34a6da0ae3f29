// The functions that a C program links. include/harbour.h declares them; each asks nothing of the tables or of the lent memory's length.
#![tactic(auto)]

ghost use Rattle.std.specs.Prelude.{◌≡◌};
ghost use Rattle.problem.specs.Tables.{tables};
ghost use Rattle.tables.specs.Examination.{examination};
ghost use Rattle.questions.specs.Questions.{lawful_question, broken_question, rows_shown};
ghost use Rattle.runs.specs.Runs.{run_result};
ghost use Rattle.files.specs.Rooms.{rooms};
ghost use Rattle.files.specs.Reader.{read_result, desk_result};
ghost use Rattle.files.specs.Writer.{write_answer, written_room};
ghost use Rattle.handing.specs.Handed.{handed, fine_or_refused, handed_written};
ghost use Rattle.harbour.specs.Handed.{handed_run, handed_part, handed_file};

use handing::{HarbourReadReply, HarbourReply, HarbourWritten};

// A part of the caller's rows.
#[repr(C)]
#[derive(Drop)]
pub struct HarbourPart {
    pub start: u64,
    pub length: u64,
}

#[unsafe(no_mangle)]
pub extern "C" fn harbour_run(
    method: u64,
    sizes: &[u8],
    pairs: &[u8],
    rows: &[u64],
    plan: &mut [u8],
    work: &mut [u64],
    checks: u64,
    trials: u64,
) -> HarbourReply
    ensures value { result ≡ handed_run (run_result method (tables sizes.now pairs.now rows.now) plan.old work.old checks trials) }
    ensures plan_after { plan.new ≡ (run_result method (tables sizes.now pairs.now rows.now) plan.old work.old checks trials).plan }
    ensures work_after { work.new ≡ (run_result method (tables sizes.now pairs.now rows.now) plan.old work.old checks trials).work }
{
    let reply = planner::run(method, sizes, pairs, rows, plan, work, checks, trials);
    HarbourReply::from(reply)
}

#[unsafe(no_mangle)]
pub extern "C" fn harbour_examine(sizes: &[u8], pairs: &[u8], rows: &[u64]) -> HarbourReply
    ensures { result ≡ handed (fine_or_refused (examination (tables sizes.now pairs.now rows.now))) 0 0 }
{
    HarbourReply::from(tables::examine(sizes, pairs, rows))
}

#[unsafe(no_mangle)]
pub extern "C" fn harbour_lawful(
    sizes: &[u8],
    pairs: &[u8],
    rows: &[u64],
    given: &[u8],
) -> HarbourReply
    ensures { result ≡ handed (lawful_question (tables sizes.now pairs.now rows.now) given.now) 0 0 }
{
    HarbourReply::from(questions::is_lawful(sizes, pairs, rows, given))
}

#[unsafe(no_mangle)]
pub extern "C" fn harbour_broken(
    sizes: &[u8],
    pairs: &[u8],
    rows: &[u64],
    given: &[u8],
) -> HarbourReply
    ensures { result ≡ handed (broken_question (tables sizes.now pairs.now rows.now) given.now) 0 0 }
{
    HarbourReply::from(questions::first_broken(sizes, pairs, rows, given))
}

#[unsafe(no_mangle)]
pub extern "C" fn harbour_rows(
    sizes: &[u8],
    pairs: &[u8],
    rows: &[u64],
    lower: u64,
    higher: u64,
) -> HarbourPart
    ensures { result ≡ handed_part (rows_shown (tables sizes.now pairs.now rows.now) lower higher) }
{
    let part = questions::place_of_rows(sizes, pairs, rows, lower as usize, higher as usize);
    HarbourPart {
        start: part.start as u64,
        length: part.len() as u64,
    }
}

#[unsafe(no_mangle)]
pub extern "C" fn harbour_read(
    file: &[u8],
    sizes: &mut [u8],
    pairs: &mut [u8],
    rows: &mut [u64],
) -> HarbourReadReply
    ensures value { result ≡ handed_file (read_result file.now (rooms sizes.old pairs.old rows.old)) }
    ensures rows_after { rooms sizes.new pairs.new rows.new ≡ (read_result file.now (rooms sizes.old pairs.old rows.old)).rooms }
{
    HarbourReadReply::from(reader::read(file, sizes, pairs, rows))
}

#[unsafe(no_mangle)]
pub extern "C" fn harbour_write(
    sizes: &[u8],
    pairs: &[u8],
    rows: &[u64],
    file: &mut [u8],
) -> HarbourWritten
    ensures value { result ≡ handed_written (write_answer (tables sizes.now pairs.now rows.now) file.old) }
    ensures file_after { file.new ≡ written_room (tables sizes.now pairs.now rows.now) file.old }
{
    HarbourWritten::from(writer::write(sizes, pairs, rows, file))
}

#[unsafe(no_mangle)]
pub extern "C" fn harbour_lawful_file(
    file: &[u8],
    given: &[u8],
    sizes: &mut [u8],
    pairs: &mut [u8],
    rows: &mut [u64],
) -> u64
    ensures value { result ≡ (desk_result file.now given.now (rooms sizes.old pairs.old rows.old)).answer.number }
    ensures rows_after { rooms sizes.new pairs.new rows.new ≡ (desk_result file.now given.now (rooms sizes.old pairs.old rows.old)).rooms }
{
    HarbourReply::from(reader::is_lawful_by(file, given, sizes, pairs, rows)).answer
}
