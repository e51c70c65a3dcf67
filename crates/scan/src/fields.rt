// Fields (document 01, sections 1 and 2): a length of 8 or 16 bits, then so many bytes, 1 or more.
ghost use Rattle.std.specs.Prelude.{◌≡◌, ◌+◌, ◌≤◌, length, drop};
ghost use Rattle.std.proofs.Math.Option.{some};
ghost use Rattle.rules.specs.Layout.{field, byte, word16};
ghost use Rattle.scan.specs.Fields.{field_bytes, FieldAt};

use crate::Range;

// A number of 16 bits at a place, low byte first.
pub fn word(text: &[u8], at: usize) -> usize
    requires { at + 2 ≤ length text.now }
    ensures { word16 (drop at text.now) ≡ some (result, drop (at + 2) text.now) }
{
    usize::from(u16::from_le_bytes([text[at], text[at + 1]]))
}

// A field of so many bytes: 1 or more, and inside the text.
fn body(text: &[u8], start: usize, len: usize) -> Option<Range>
    requires { start ≤ length text.now }
    ensures { FieldAt text.now (field_bytes len) start result }
{
    if (len == 0) | (text.len() - start < len) {
        return None;
    }
    Some(Range {
        from: start,
        to: start + len,
    })
}

// A field behind its length of 8 bits.
pub fn short_field(text: &[u8], at: usize) -> Option<Range>
    ensures { FieldAt text.now (field byte) at result }
{
    if text.len() <= at {
        return None;
    }
    body(text, at + 1, usize::from(text[at]))
}

// A field behind its length of 16 bits.
pub fn long_field(text: &[u8], at: usize) -> Option<Range>
    ensures { FieldAt text.now (field word16) at result }
{
    if text.len().saturating_sub(at) < 2 {
        return None;
    }
    body(text, at + 2, word(text, at))
}
