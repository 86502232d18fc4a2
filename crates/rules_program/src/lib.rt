#![tactic(auto)]

// What the program prints: definitions (specs/) and samples (proofs/); this crate has no code to run.
