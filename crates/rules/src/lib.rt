#![tactic(auto)]

// The rules are definitions (specs/) and what they give for samples (proofs/); this crate has no code to run.
