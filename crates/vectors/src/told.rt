// What each operation answers, as a reply's line has it: the one place where answers become numbers.
use crate::group::Tables;
use problem::{Allowance, Answer, Numbered, Problem, Refusal};
use std::fmt;

// A refusal counts from 100, so that its number is no other answer's.
#[derive(Clone, Copy)]
pub struct Told {
    pub number: u64,
    pub place: u64,
}

impl Told {
    fn new(number: u64) -> Self {
        Told { number, place: 0 }
    }

    // A refusal, or what is answered where nothing is refused.
    pub fn of<T: Into<Told>>(found: Result<T, Refusal>) -> Self {
        match found {
            Ok(answer) => answer.into(),
            Err(why) => Told::from(why),
        }
    }

    // The place of fine tables is 0 where their own numbers are the ones given here.
    pub fn examined(found: Result<Problem, Refusal>, given: &Tables) -> Self {
        match found {
            Ok(own) => {
                let boats = own.boats ^ given.sizes.len();
                let pairs = own.pairs ^ given.pairs.len() / 2;
                let words = own.words ^ given.rows.len();
                Told {
                    number: 0,
                    place: (boats | pairs | words) as u64,
                }
            }
            Err(why) => why.into(),
        }
    }

    // With the file's length, 0 where it is not written.
    pub fn written(found: Result<usize, Refusal>) -> (Self, usize) {
        match found {
            Ok(length) => (Told::new(0), length),
            Err(why) => (why.into(), 0),
        }
    }
}

impl From<Refusal> for Told {
    fn from(why: Refusal) -> Self {
        let told = Numbered::from(why);
        Told {
            number: told.number.saturating_add(100),
            place: told.place,
        }
    }
}

// Fine tables.
impl From<Problem> for Told {
    fn from(_: Problem) -> Self {
        Told::new(0)
    }
}

// Is the plan lawful?
impl From<bool> for Told {
    fn from(lawful: bool) -> Self {
        Told::new(if lawful { 0 } else { 1 })
    }
}

// Which pair is broken, if any.
impl From<Option<usize>> for Told {
    fn from(broken: Option<usize>) -> Self {
        match broken {
            None => Told::new(0),
            Some(pair) => Told {
                number: 1,
                place: pair as u64,
            },
        }
    }
}

impl From<Answer> for Told {
    fn from(answer: Answer) -> Self {
        match answer {
            Answer::Solved => Told::new(0),
            Answer::NoPlan => Told::new(1),
            Answer::Undecided(Allowance::Checks) => Told::new(2),
            Answer::Undecided(Allowance::Trials) => Told::new(3),
            Answer::Refused(why) => why.into(),
        }
    }
}

impl fmt::Display for Told {
    fn fmt<W: fmt::Write>(&self, f: &mut fmt::Formatter<W>) -> fmt::Result {
        let Told { number, place } = *self;
        write!(f, "{number} {place}")
    }
}
