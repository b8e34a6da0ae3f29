// The moves that a method is made of, and what is made ready before the first.
#![tactic(auto)]

mod preparing;

pub use preparing::{prepare_ahead, prepare_back, prepare_marked};
use visits::Backward;

// What contracts call a method by: its forward move, and where that leaves it open, its backward one.
#[derive(Clone, Copy)]
pub enum Moves {
    LookingBack(Backward),
    Marking,
    LookingAhead(Backward),
}
