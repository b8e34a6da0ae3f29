// Numbers 10 and 11, and the lowest broken pair: a given plan, after the examination.
ghost use Rattle.std.specs.Prelude.{◌≡◌, length};
ghost use Rattle.problem.specs.Tables.{boats};
ghost use Rattle.problem.specs.Plans.{Plan};
ghost use Rattle.tables.specs.Tests.{each};
ghost use Rattle.tables.specs.Ways.{IsFirst};
ghost use Rattle.questions.specs.Questions.{bad_slot, IsBroken, broken_question};
ghost use Rattle.questions.specs.Replies.{broken_told};

use problem::Refusal;
use tables::FineTables;

// Each boat's slot is below its size; or the lowest boat whose slot is not.
fn slots_inside(tables: &FineTables, plan: &[u8]) -> Result<(), Refusal>
    requires { length plan.now ≡ boats tables.now }
    ensures { IsFirst result (each 11 (boats tables.now) (bad_slot tables.now.sizes plan.now)) }
{
    let sizes = tables.size_bytes();
    for i in 0..sizes.len() {
        if sizes[i] <= plan[i] {
            return Err(Refusal::GivenSlot(i));
        }
    }
    Ok(())
}

// The lowest listed pair that a plan breaks, if it breaks one.
#[tactic(auto, using(crate::proofs::Keeping::row_inside, crate::proofs::Keeping::next_row, crate::proofs::Keeping::keeps_is))]
fn lowest_broken(tables: &FineTables, plan: &[u8]) -> Option<usize>
    requires { Plan tables.now plan.now }
    ensures { IsBroken result tables.now plan.now }
{
    let rows = tables.row_words();
    let mut start: usize = 0;
    for k in 0..tables.pairs() {
        let low = tables.lower(k);
        let row = rows[start + usize::from(plan[low])];
        if !looks::bit(row, usize::from(plan[tables.higher(k)])) {
            return Some(k);
        }
        start += tables.size(low);
    }
    None
}

// What the examination leaves of the broken-pair question.
#[tactic(auto, using(crate::proofs::Judging::judged_10, crate::proofs::Judging::judged_11, crate::proofs::Judging::planned, crate::proofs::Judging::judged_pair))]
pub fn broken_pair(tables: &FineTables, plan: &[u8]) -> Result<Option<usize>, Refusal>
    ensures { broken_told result ≡ broken_question tables.now plan.now }
{
    if plan.len() != tables.boats() {
        return Err(Refusal::GivenLength);
    }
    slots_inside(tables, plan)?;
    Ok(lowest_broken(tables, plan))
}
