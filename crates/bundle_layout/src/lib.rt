// The bundle's layout (document 01, section 1), checked: its entries one by one, their paths in order, and no path a folder of another.
#![tactic(auto)]

ghost use Rattle.bundle_layout.specs.Check.{Checks};

mod order;
mod walk;

use bundle::Bundle;
use scan::fields::word;
use walk::Walk;

// The bundle of bytes that keep the layout; none where they break it.
pub fn check(b: &[u8]) -> Option<Bundle<'_>>
    ensures { Checks b.now result }
{
    if b.len() < 2 {
        return None;
    }
    let mut walk = Walk::start();
    for done in 0..word(b, 0) {
        walk.next(b)?;
    }
    let ended = walk.at == b.len();
    if !ended {
        return None;
    }
    Some(Bundle::new(b))
}
