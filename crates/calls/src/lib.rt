// Calls (document 01, section 5): what a call comes to; what the texts that it takes measure; an expression compared with another text.
#![tactic(auto)]

use refusal::Refusal;

pub mod compare;
pub mod measure;

// The output of a call: does the call end on its own `)` or `]`; was its text put, or was there no room. A call that is handed back has none.
#[derive(Clone, Copy)]
pub struct Output {
    pub whole: bool,
    pub put: Result<(), Refusal>,
}
