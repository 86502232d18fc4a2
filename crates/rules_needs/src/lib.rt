#![tactic(auto)]

// What a batch needs: definitions (specs/) and theorems about them (proofs/); this crate has no code to run.
