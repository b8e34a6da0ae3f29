// Lines of fields, as a text holds them. What is not of that form is misread, and not refused.
#![tactic(auto)]

mod base;
mod fields;
mod lines;

pub use base::Base;
pub use fields::Fields;
pub use lines::{Line, Lines};
