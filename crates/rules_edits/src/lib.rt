#![tactic(auto)]

// The rules are definitions (specs/) and theorems about them (proofs/); this crate has no code to run.
