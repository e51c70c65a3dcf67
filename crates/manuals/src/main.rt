// Replays bundles with what `manual` must write for them (crates/manuals/README.md). It prints each case that differs, and how many
// there were.
#![tactic(auto)]

use cases::{Case, Cases, Fields, holds};
use std::io::Result;

// Is this what is written for the bundle, and zero behind it? The buffer is filled, so that a byte that is left as it was is seen.
fn same(bundle: &[u8], text: &[u8]) -> bool {
    let mut out = [170; 32768];
    let n = manual_text::manual(bundle, &mut out);
    n == text.len() && holds(&out, text)
}

// The cases of the manuals, each two fields, the bundle and the text.
#[derive(Clone, Copy)]
struct Manuals;

impl Case for Manuals {
    fn next_same(&self, fields: &mut Fields<'_>) -> Option<bool> {
        let bundle = fields.next()?;
        Some(same(bundle, fields.field()))
    }
}

fn main(rt: HostRuntime) -> Result<()> {
    let mut input = [0; 196608];
    let n = input::read_full(&mut rt.stdin(), &mut input)?;
    let mut out = rt.stdout();
    let tally = cases::replay(Cases::of(Manuals, &input[..n]), &mut out)?;
    cases::report(tally, &mut out)
}
