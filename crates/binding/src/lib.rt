// Binding names among the records in a lent buffer (document 01, section 2).
#![tactic(auto)]

ghost use Rattle.std.specs.Prelude.{◌≡◌, List, ℕ, length};
ghost use Rattle.rules.specs.Sheet.{Value, text};
ghost use Rattle.sheet.specs.Find.{Tells};
ghost use Rattle.binding.specs.Write.{IsSource, Sources};

pub mod buffer;
pub mod sheet_buffer;

use record_bytes::Lead;
use scan::Range;
use sheet::lookup::Found;

// The part of the records that a record is to stand in place of, with its opening's length and the records' new length.
#[derive(Clone, Copy, Debug, PartialEq, Eq)]
pub struct Room {
    pub place: Range,
    pub head: usize,
    pub total: usize,
}

// A value: what stands before its own bytes, and where these lie.
#[derive(Clone, Copy, Debug, PartialEq, Eq)]
pub struct Source {
    pub lead: Lead,
    pub own: Range,
}

// What stands before a text of these many bytes; the empty one has no bit of its own.
pub fn text_lead(len: usize) -> Lead
    ensures { (t : List ℕ) → length t ≡ len → IsSource (text t) result t }
{
    if len == 0 {
        return Lead::Empty;
    }
    Lead::Text(len)
}

// The value that a lookup found.
fn source_of(value: Found) -> Source
    ensures { (s : List ℕ) (v : Value) → Tells s v value → Sources s v result }
{
    match value {
        Found::Nothing => Source {
            lead: Lead::Nothing,
            own: Range { from: 0, to: 0 },
        },
        Found::Text(own) => Source {
            lead: text_lead(own.to.saturating_sub(own.from)),
            own,
        },
        Found::Dictionary { records, count } => Source {
            lead: Lead::Dictionary(count),
            own: records,
        },
    }
}
