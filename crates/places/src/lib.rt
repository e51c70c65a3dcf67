// Where a name's record stands in a sheet, or is to go.
#![tactic(auto)]

ghost use Rattle.rules.specs.Sheet.{Records};
ghost use Rattle.sheet.specs.Name.{asked};
ghost use Rattle.places.specs.Place.{Placing, Placed};
ghost use Rattle.places.specs.Mark.{Marked, HasMark};

use scan::Range;
use sheet::Name;
use sheet::lookup::{Walk, item, order, skip};
use std::cmp::Ordering;

// Where the search for a name starts: at `last`, unless the record there comes behind the name.
fn start(s: &[u8], last: usize, name: Name<'_>) -> usize
    requires { HasMark s.now last }
    ensures { (r : Records) → Marked s.now r last → Placing s.now r (asked name.entry) result }
{
    if last == 0 {
        return 0;
    }
    if s.len() <= last {
        return 0;
    }
    let o = item(s, last);
    let behind = order(o.name, name) == Ordering::Greater;
    if behind {
        return 0;
    }
    last
}

// Finds the part of the sheet that a name's record is to stand in place of.
pub fn find_place(s: &[u8], last: usize, name: Name<'_>) -> Range
    requires { HasMark s.now last }
    ensures { (r : Records) → Marked s.now r last → Placed s.now r (asked name.entry) result.from result.to }
{
    let level = Range {
        from: start(s, last, name),
        to: s.len(),
    };
    for (i, o) in Walk::over(s, level) {
        match order(o.name, name) {
            Ordering::Less => {}
            Ordering::Equal => {
                let end = skip(s, o.next, o.count);
                return Range { from: i, to: end };
            }
            Ordering::Greater => return Range { from: i, to: i },
        }
    }
    Range {
        from: s.len(),
        to: s.len(),
    }
}
