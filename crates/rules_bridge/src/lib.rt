#![tactic(auto)]

// Document 02, W13: definitions (specs/) and theorems about them (proofs/); this crate has no code to run.
