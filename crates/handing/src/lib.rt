// The replies of the operations, each as the numbers that a C caller is handed.
#![tactic(auto)]

ghost use Rattle.std.specs.Prelude.{◌≡◌};
ghost use Rattle.problem.specs.Replies.{answer_told, refusal_told};
ghost use Rattle.tables.specs.Replies.{examined_told};
ghost use Rattle.questions.specs.Replies.{judged_told, broken_told};
ghost use Rattle.writer.specs.Replies.{written_told};
ghost use Rattle.handing.specs.Handed.{handed, fine_or_refused, handed_read, handed_written};

use problem::{Allowance, Answer, Numbered, Problem, Refusal, Reply};
use reader::FileRead;

// An answer by its number, its place, and both counts.
#[repr(C)]
#[derive(Drop)]
pub struct HarbourReply {
    pub answer: u64,
    pub place: u64,
    pub checks: u64,
    pub trials: u64,
}

// An answer about a file by its number and its place, and how much is written to each part.
#[repr(C)]
#[derive(Drop)]
pub struct HarbourReadReply {
    pub answer: u64,
    pub place: u64,
    pub boats: u64,
    pub pair_bytes: u64,
    pub row_words: u64,
}

// The writer's answer by its number and its place, and the file's length.
#[repr(C)]
#[derive(Drop)]
pub struct HarbourWritten {
    pub answer: u64,
    pub place: u64,
    pub length: u64,
}

impl HarbourReply {
    pub const SOLVED: u64 = 0;

    pub const NO_PLAN: u64 = 1;

    pub const UNDECIDED_BY_CHECKS: u64 = 2;

    pub const UNDECIDED_BY_TRIALS: u64 = 3;

    pub const FINE: u64 = 0;

    pub const WRITTEN: u64 = 0;

    pub const LAWFUL: u64 = 0;

    pub const UNLAWFUL: u64 = 1;

    pub const UNBROKEN: u64 = 0;

    pub const BROKEN: u64 = 1;

    // A refusal's number is added to it.
    pub const REFUSED: u64 = 100;

    // What comes of no run has no counts.
    fn uncounted(answer: u64, place: u64) -> Self
        ensures { result ≡ record { answer = answer; place = place; checks = 0; trials = 0 } }
    {
        Self {
            answer,
            place,
            checks: 0,
            trials: 0,
        }
    }
}

impl From<Refusal> for HarbourReply {
    ghost from_gives = { λ why reply. reply ≡ handed (refusal_told why) 0 0 };

    fn from(why: Refusal) -> Self {
        let told = Numbered::from(why);
        Self::uncounted(Self::REFUSED + told.number, told.place)
    }
}

impl From<Answer> for HarbourReply {
    ghost from_gives = { λ answer reply. reply ≡ handed (answer_told answer) 0 0 };

    fn from(answer: Answer) -> Self {
        match answer {
            Answer::Solved => Self::uncounted(Self::SOLVED, 0),
            Answer::NoPlan => Self::uncounted(Self::NO_PLAN, 0),
            Answer::Undecided(Allowance::Checks) => Self::uncounted(Self::UNDECIDED_BY_CHECKS, 0),
            Answer::Undecided(Allowance::Trials) => Self::uncounted(Self::UNDECIDED_BY_TRIALS, 0),
            Answer::Refused(why) => Self::from(why),
        }
    }
}

// A run's answer beside its counts.
impl From<Reply> for HarbourReply {
    ghost from_gives = { λ reply numbers. numbers ≡ handed (answer_told reply.answer) reply.checks reply.trials };

    fn from(reply: Reply) -> Self {
        Self {
            checks: reply.checks,
            trials: reply.trials,
            ..Self::from(reply.answer)
        }
    }
}

// Are the tables fit?
impl From<Result<Problem, Refusal>> for HarbourReply {
    ghost from_gives = { λ found reply. reply ≡ handed (fine_or_refused (examined_told found)) 0 0 };

    fn from(found: Result<Problem, Refusal>) -> Self {
        match found {
            Ok(_) => Self::uncounted(Self::FINE, 0),
            Err(why) => Self::from(why),
        }
    }
}

// Is the plan lawful?
impl From<Result<bool, Refusal>> for HarbourReply {
    ghost from_gives = { λ found reply. reply ≡ handed (judged_told found) 0 0 };

    fn from(found: Result<bool, Refusal>) -> Self {
        match found {
            Ok(true) => Self::uncounted(Self::LAWFUL, 0),
            Ok(false) => Self::uncounted(Self::UNLAWFUL, 0),
            Err(why) => Self::from(why),
        }
    }
}

// Which pair does the plan break?
impl From<Result<Option<usize>, Refusal>> for HarbourReply {
    ghost from_gives = { λ found reply. reply ≡ handed (broken_told found) 0 0 };

    fn from(found: Result<Option<usize>, Refusal>) -> Self {
        match found {
            Ok(None) => Self::uncounted(Self::UNBROKEN, 0),
            Ok(Some(pair)) => Self::uncounted(Self::BROKEN, pair as u64),
            Err(why) => Self::from(why),
        }
    }
}

impl From<FileRead> for HarbourReadReply {
    ghost from_gives = { λ reply numbers. numbers ≡ handed_read (examined_told reply.found) reply.boats reply.pair_bytes reply.row_words };

    fn from(reply: FileRead) -> Self {
        let told = HarbourReply::from(reply.found);
        Self {
            answer: told.answer,
            place: told.place,
            boats: reply.boats as u64,
            pair_bytes: reply.pair_bytes as u64,
            row_words: reply.row_words as u64,
        }
    }
}

impl From<Result<usize, Refusal>> for HarbourWritten {
    ghost from_gives = { λ found written. written ≡ handed_written (written_told found) };

    fn from(found: Result<usize, Refusal>) -> Self {
        match found {
            Ok(length) => Self {
                answer: HarbourReply::WRITTEN,
                place: 0,
                length: length as u64,
            },
            Err(why) => {
                let told = HarbourReply::from(why);
                Self {
                    answer: told.answer,
                    place: told.place,
                    length: 0,
                }
            }
        }
    }
}
