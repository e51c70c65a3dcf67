// Files of definitions (document 01, section 7).
#![tactic(auto)]

pub mod files;
pub mod steps;
