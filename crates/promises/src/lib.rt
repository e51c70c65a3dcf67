#![tactic(auto)]

// Theorems over the definitions of `rules`, in proofs/; this crate has no code.
