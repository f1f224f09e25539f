#![tactic(auto)]

// Every entry point's promise decides what comes of a call. See proofs/Unique.
