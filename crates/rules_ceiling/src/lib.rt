#![tactic(auto)]

// Demand 3: its statement (specs/) and what is proved of every pass (proofs/); this crate has no code to run.
