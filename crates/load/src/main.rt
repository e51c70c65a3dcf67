// The program `load` (E2): a seed on standard input, four bytes, low byte first, and behind them a byte, 0 for a document, any other for definitions;
// the load of the seed on standard output. Bytes that are not there count as 0.
#![tactic(auto)]

use std::io::{Result, Write};

fn main(rt: HostRuntime) -> Result<()> {
    let mut input = [0; 5];
    input::read_full(&mut rt.stdin(), &mut input)?;
    let [a, b, c, d, definitions] = input;
    let seed = u32::from_le_bytes([a, b, c, d]);
    // Every load fits (promises, `Loads.enough`), so no call is refused.
    let mut out = [0; 448];
    let len = test_load::test_load(seed, definitions != 0, &mut out).unwrap_or(0);
    rt.stdout().write_all(&out[..len])
}
