#![tactic(auto)]

// The theorems about the rules (proofs/); this crate has no code to run.
