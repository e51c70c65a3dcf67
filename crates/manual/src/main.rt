// The program `manual` (document 01, section 10): a bundle on standard input, its manual on standard output. One byte more than a bundle
// may have is read, so that a longer one is seen.
#![tactic(auto)]

use std::io::{Result, Write};

fn main(rt: HostRuntime) -> Result<()> {
    let mut input = [0; 16385];
    let mut out = [0; 32768];
    let n = input::read_full(&mut rt.stdin(), &mut input)?;
    let len = manual_text::manual(&input[..n], &mut out);
    rt.stdout().write_all(&out[..len])
}
