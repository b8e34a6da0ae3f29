// The working words: where a run keeps what it remembers. docs/WORDS.md has the layout.
#![tactic(auto)]

mod clearing;
mod places;
mod sets;

pub use clearing::clear;
pub use places::{Words, row_at};
pub use sets::{deepest_of, handed_down, with_member, with_member_if};
