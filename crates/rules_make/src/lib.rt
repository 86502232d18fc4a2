#![tactic(auto)]

// What the maker of a set answers: definitions (specs/) and theorems about them (proofs/); this crate has no code to run.
