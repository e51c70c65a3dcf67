#![tactic(auto)]

// The rules of document 01 are definitions, in specs/; this crate has no code.
