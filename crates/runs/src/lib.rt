// What a run is to leave, for every input, and what follows from that. This crate has definitions and theorems, and no code.
#![tactic(auto)]
