// The file of the tables: what it has, what bytes mean to a reader, and what follows from that. This crate has definitions and theorems, and no code.
#![tactic(auto)]
