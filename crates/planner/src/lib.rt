// The operation that people call: run a method on tables, under allowances.
#![tactic(auto)]

ghost use Rattle.std.specs.Prelude.{◌≡◌, ◌≤◌, length};
ghost use Rattle.problem.specs.Tables.{tables};
ghost use Rattle.events.specs.Counts.{Fits};
ghost use Rattle.words.specs.Places.{used};
ghost use Rattle.moves.specs.Memory.{moves_of};
ghost use Rattle.searching.specs.Searched.{Searched};
ghost use Rattle.tables.specs.Examination.{Fine};
ghost use Rattle.runs.specs.Runs.{run_result, result_of};
ghost use Rattle.runs.specs.Lent.{lent_result};

use ends::Ended;
use events::Counts;
use moving::{BySets, LookingAhead, LookingBack, Marking, OneBack};
use problem::{Method, Problem, Refusal, Reply};
use tables::FineTables;

// The one place where a method becomes its moves.
fn searched(method: Method, tables: &FineTables, start: Counts, work: &mut [u64]) -> Ended
    requires used_in_bounds { used ≤ length work.old }
    requires fits { Fits start }
    ensures { Searched (moves_of method) tables.now work.old start work.new result }
{
    match method {
        Method::Bt => searching::search::<LookingBack<OneBack>>(tables, start, work),
        Method::Cbj => searching::search::<LookingBack<BySets>>(tables, start, work),
        Method::Bm => searching::search::<Marking>(tables, start, work),
        Method::Fc => searching::search::<LookingAhead<OneBack>>(tables, start, work),
        Method::FcCbj => searching::search::<LookingAhead<BySets>>(tables, start, work),
    }
}

// The tables are fine. The lent memory is tested; then comes the search, and the words are cleared after it.
fn run_fine(
    method: Method,
    sizes: &[u8],
    pairs: &[u8],
    rows: &[u64],
    plan: &mut [u8],
    work: &mut [u64],
    checks: u64,
    trials: u64,
) -> Reply
    requires { Fine (tables sizes.now pairs.now rows.now) }
    ensures { result_of result plan.new work.new ≡ lent_result method (tables sizes.now pairs.now rows.now) plan.old work.old checks trials }
{
    let tables = FineTables::fine(sizes, pairs, rows);
    let n = tables.boats();
    if plan.len() < n {
        return Reply::from(Refusal::PlanMemory);
    }
    if Problem::short_work(work.len()) {
        return Reply::from(Refusal::WorkMemory);
    }
    let ended = searched(method, &tables, Counts::new(checks, trials), work);
    ends::write_plan(ended, n, work, plan);
    words::clear(work);
    Reply::from(ended)
}

// Runs a method by its number. Only a run that is not refused changes what is lent: a solved one writes the plan, and each leaves the first 8,192 words 0.
pub fn run(
    method: u64,
    sizes: &[u8],
    pairs: &[u8],
    rows: &[u64],
    plan: &mut [u8],
    work: &mut [u64],
    checks: u64,
    trials: u64,
) -> Reply
    ensures { result_of result plan.new work.new ≡ run_result method (tables sizes.now pairs.now rows.now) plan.old work.old checks trials }
{
    let Ok(chosen) = Method::try_from(method) else {
        return Reply::from(Refusal::Method);
    };
    // An else binds nothing, so it is the refusal that is bound here, and returned below with counts 0.
    let Err(why) = tables::examine(sizes, pairs, rows) else {
        return run_fine(chosen, sizes, pairs, rows, plan, work, checks, trials);
    };
    Reply::from(why)
}
