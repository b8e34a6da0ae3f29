// What each method does, and why it is right. This crate has definitions and theorems, and no code.
#![tactic(auto)]
