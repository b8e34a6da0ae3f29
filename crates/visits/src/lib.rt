// A visit of a boat: what every method's forward move is made of, and where it leads.
#![tactic(auto)]

ghost use Rattle.std.specs.Prelude.{◌≡◌, ◌<◌};
ghost use Rattle.problem.specs.Tables.{bit};
ghost use Rattle.events.specs.Counts.{check_counted};
ghost use Rattle.visits.specs.Looks.{checked_look};

use events::Counts;

// A way back over a forward move that remembers nothing of its own: by one boat, or by conflict sets.
#[derive(Clone, Copy)]
pub enum Backward {
    OneBack,
    BySets,
}

// Where a visit of a boat leads, with the counts and the boat's conflict set: the slot that passed, no slot left, or the end of the run, inside the step at a slot or before it. Inside, so many events of the step are made.
#[derive(Drop)]
pub enum Visited {
    Passed(Counts, u64, u64),
    Spent(Counts, u64),
    OutOfChecks(Counts, u64, u64, u64),
    OutOfTrials(Counts, u64, u64),
}

// One boat looked at: go on to the next, leave the trial, or end the run with the counts as they were.
#[derive(Drop)]
pub enum Look {
    Allowed(Counts),
    Forbidden(Counts),
    OutOfChecks,
}

// A check of a slot against the row of a placed boat's slot.
pub fn check_row(row: u64, slot: u64, counts: Counts) -> Look
    requires { slot < 64 }
    ensures { result ≡ checked_look (bit row slot) (check_counted counts) }
{
    let Some(k) = counts.check() else {
        return Look::OutOfChecks;
    };
    if looks::bit(row, slot as usize) {
        Look::Allowed(k)
    } else {
        Look::Forbidden(k)
    }
}
