#![tactic(auto)]

// Document 02, W11: definitions (specs/) and theorems about them (proofs/); this crate has no code to run.
