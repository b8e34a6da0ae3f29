// The harbour's problem: its limits and methods, and what an operation answers.
#![tactic(auto)]

ghost use Rattle.std.specs.Prelude.{◌≡◌, ◌||◌, ◌%◌, ltb, eqb};
ghost use Rattle.problem.specs.Methods.{method_numbered, method_or_refused};
ghost use Rattle.problem.specs.Replies.{refusal_number, refusal_place, refused_reply};

// A problem by its numbers: boats, listed pairs and row words. It holds none of the tables.
#[derive(Clone, Copy, PartialEq, Eq)]
pub struct Problem {
    pub boats: usize,
    pub pairs: usize,
    pub words: usize,
}

impl Problem {
    pub const BOATS: usize = 64;

    pub const SLOTS: usize = 64;

    pub const PAIRS: usize = 2016;

    pub const WORK: usize = 8192;

    pub const BT: u64 = 1;

    pub const CBJ: u64 = 2;

    pub const BM: u64 = 3;

    pub const FC: u64 = 4;

    pub const FC_CBJ: u64 = 5;

    pub fn of(boats: usize, pairs: usize, words: usize) -> Self
        ensures { result ≡ record { boats = boats; pairs = pairs; words = words } }
    {
        Self {
            boats,
            pairs,
            words,
        }
    }

    // More boats than a problem may have.
    pub fn too_many_boats(boats: usize) -> bool
        ensures { result ≡ ltb 64 boats }
    {
        Self::BOATS < boats
    }

    // No size of a boat.
    pub fn bad_size(size: usize) -> bool
        ensures { result ≡ (eqb size 0 || ltb 64 size) }
    {
        size == 0 || Self::SLOTS < size
    }

    // No number of bytes that pairs take, two each.
    pub fn bad_pair_bytes(bytes: usize) -> bool
        ensures { result ≡ (eqb (bytes % 2) 1 || ltb 4032 bytes) }
    {
        bytes % 2 == 1 || 2 * Self::PAIRS < bytes
    }

    // Fewer working words than a run needs.
    pub fn short_work(words: usize) -> bool
        ensures { result ≡ ltb words 8192 }
    {
        words < Self::WORK
    }
}

// The five methods.
#[derive(Clone, Copy, PartialEq, Eq)]
pub enum Method {
    Bt,
    Cbj,
    Bm,
    Fc,
    FcCbj,
}

// No number but the five is a method's.
impl TryFrom<u64> for Method {
    type Error = Refusal;

    ghost try_from_gives = { λ number method. method ≡ method_or_refused (method_numbered number) };

    fn try_from(number: u64) -> Result<Self, Refusal> {
        match number {
            Problem::BT => Ok(Method::Bt),
            Problem::CBJ => Ok(Method::Cbj),
            Problem::BM => Ok(Method::Bm),
            Problem::FC => Ok(Method::Fc),
            Problem::FC_CBJ => Ok(Method::FcCbj),
            _ => Err(Refusal::Method),
        }
    }
}

// Why an operation refuses its input, with the place where the paper gives one other than 0.
#[derive(Clone, Copy, PartialEq, Eq)]
pub enum Refusal {
    Method,
    Boats,
    Size(usize),
    PairBytes,
    PairNoBoat(usize),
    PairSameBoat(usize),
    PairHigherFirst(usize),
    PairNotRising(usize),
    RowWords,
    RowBit(usize),
    PlanMemory,
    WorkMemory,
    GivenLength,
    GivenSlot(usize),
    Mark(usize),
    FileEnd(usize),
    FileBoat(usize),
    FileCount(usize),
    FileRest(usize),
    Room,
}

// The allowance that ran out.
#[derive(Clone, Copy, PartialEq, Eq)]
pub enum Allowance {
    Checks,
    Trials,
}

#[derive(Clone, Copy, PartialEq, Eq)]
pub enum Answer {
    Solved,
    NoPlan,
    Undecided(Allowance),
    Refused(Refusal),
}

// The answer of a run beside both counts.
#[derive(Clone, Copy, PartialEq, Eq)]
pub struct Reply {
    pub answer: Answer,
    pub checks: u64,
    pub trials: u64,
}

// A refused run has made no check and no trial.
impl From<Refusal> for Reply {
    ghost from_gives = { λ why reply. reply ≡ refused_reply why };

    fn from(why: Refusal) -> Self {
        Self {
            answer: Answer::Refused(why),
            checks: 0,
            trials: 0,
        }
    }
}

// A refusal as the paper has it.
#[derive(Clone, Copy, PartialEq, Eq)]
pub struct Numbered {
    pub number: u64,
    pub place: u64,
}

// The one place where a refusal becomes its number and place.
impl From<Refusal> for Numbered {
    ghost from_gives = { λ why numbered. (numbered.number ≡ refusal_number why) × (numbered.place ≡ refusal_place why) };

    fn from(why: Refusal) -> Self {
        match why {
            Refusal::Method => at(1, 0),
            Refusal::Boats => at(2, 0),
            Refusal::Size(boat) => at(3, boat),
            Refusal::PairBytes => at(4, 0),
            Refusal::PairNoBoat(byte) => at(51, byte),
            Refusal::PairSameBoat(byte) => at(52, byte),
            Refusal::PairHigherFirst(byte) => at(53, byte),
            Refusal::PairNotRising(byte) => at(54, byte),
            Refusal::RowWords => at(6, 0),
            Refusal::RowBit(word) => at(7, word),
            Refusal::PlanMemory => at(8, 0),
            Refusal::WorkMemory => at(9, 0),
            Refusal::GivenLength => at(10, 0),
            Refusal::GivenSlot(boat) => at(11, boat),
            Refusal::Mark(byte) => at(21, byte),
            Refusal::FileEnd(byte) => at(22, byte),
            Refusal::FileBoat(byte) => at(23, byte),
            Refusal::FileCount(byte) => at(24, byte),
            Refusal::FileRest(byte) => at(25, byte),
            Refusal::Room => at(26, 0),
        }
    }
}

fn at(number: u64, place: usize) -> Numbered
    ensures { (result.number ≡ number) × (result.place ≡ place) }
{
    Numbered {
        number,
        place: place as u64,
    }
}
