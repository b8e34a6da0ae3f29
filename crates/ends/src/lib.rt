// How a run ends, how that is told, and the plan written to the lent memory.
#![tactic(auto)]

ghost use Rattle.std.specs.Prelude.{◌≡◌, ◌++◌, ℕ, ◌≤◌, ◌<◌, length, take, drop};
ghost use Rattle.words.specs.Layout.{word};
ghost use Rattle.events.specs.declared.Counts.{Counts};
ghost use Rattle.ends.specs.declared.Ended.TheVariants.{Solved};
ghost use Rattle.ends.specs.Ends.{decision_then};
ghost use Rattle.runs.specs.Runs.{written};
ghost use Rattle.ends.specs.Replies.{reply_at_end};

use events::Counts;
use problem::{Allowance, Answer, Reply};

// Where a run stands that an allowance ends: the boat and the slot at hand, and how many events of that slot's step are made.
#[derive(Clone, Copy)]
pub struct Place {
    pub boat: usize,
    pub slot: u64,
    pub made: u64,
}

// How a search ends.
#[derive(Clone, Copy)]
pub enum Ended {
    Solved(Counts),
    NoPlan(Counts),
    Undecided(Counts, Allowance, Place),
}

// The slots of n boats go to the plan's first n bytes.
fn copy_plan(n: usize, work: &[u64], plan: &mut [u8])
    requires n_in_bounds { (n ≤ length work.now) × (n ≤ length plan.old) }
    requires by_index { (k : ℕ) → k < n → word work.now k < 256 }
    ensures { plan.new ≡ take n work.now ++ drop n plan.old }
{
    for k in 0..n {
        plan[k] = work[k] as u8;
    }
}

// Only a solved run writes the plan.
pub fn write_plan(ended: Ended, n: usize, work: &[u64], plan: &mut [u8])
    requires n_in_bounds { (n ≤ length work.now) × (n ≤ length plan.old) }
    requires k_bound { (c : Counts) → ended ≡ Solved c → (k : ℕ) → k < n → word work.now k < 256 }
    ensures { plan.new ≡ written (decision_then ended (take n work.now)) ++ drop (length (written (decision_then ended (take n work.now)))) plan.old }
{
    if let Ended::Solved(_) = ended {
        copy_plan(n, work, plan)
    }
}

fn reply(answer: Answer, counts: Counts) -> Reply
    ensures { result ≡ record { answer = answer; checks = counts.checks; trials = counts.trials } }
{
    Reply {
        answer,
        checks: counts.checks,
        trials: counts.trials,
    }
}

// Where an undecided run stands is not told.
impl From<Ended> for Reply {
    ghost from_gives = { λ ended reply. reply ≡ reply_at_end ended };

    fn from(ended: Ended) -> Self {
        match ended {
            Ended::Solved(k) => reply(Answer::Solved, k),
            Ended::NoPlan(k) => reply(Answer::NoPlan, k),
            Ended::Undecided(k, which, _) => reply(Answer::Undecided(which), k),
        }
    }
}
