// The steps of the expansion (document 01, section 5), but `#import` and `#let`; and the step at a `#`, by its mark.
#![tactic(auto)]

pub mod call_steps;
pub mod output;
pub mod reference;
pub mod step;
