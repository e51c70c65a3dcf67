// Record heads: the map byte by masks, the name, and where the value lies.
ghost use Rattle.std.specs.Prelude.{◌≡◌, true, ◌≤◌, length};
ghost use Rattle.sheet.specs.Heads.{good_map, ValueReads, Reads};

use scan::fields::{long_field, word};

// The bits of a map byte: a name; a text, a dictionary or none.
pub const NAME: u8 = 1;

pub const TEXT: u8 = 2;

pub const DICTIONARY: u8 = 4;

pub const NONE: u8 = 8;

// What a map byte may hold: of a binding, and of a dictionary's entry.
pub const BINDING: u8 = NAME | TEXT | DICTIONARY | NONE;

pub const ENTRY: u8 = NAME | TEXT | DICTIONARY | NONE;

// What a record's value is.
#[derive(Clone, Copy, Debug, PartialEq, Eq)]
pub enum Kind {
    Nothing,
    Text,
    Dictionary,
}

// A record: its name, its value's kind, its text from `at` up to `next`, and there the next record. Of a dictionary `count` records of its own begin
// there. A walk asks every record for `next` and `count`, so they stand beside the kind and not in it.
#[derive(Clone, Copy, Debug, PartialEq, Eq)]
pub struct Item<'a> {
    pub name: &'a [u8],
    pub kind: Kind,
    pub at: usize,
    pub next: usize,
    pub count: usize,
}

// Does the map byte hold only bits of the mask, and at most one of a value? The mask says which bits a record of its level may have: `BINDING` or
// `ENTRY`, which are one number until bindings have a bit more (E3).
fn allowed(m: u8, mask: u8) -> bool
    requires { mask ≡ 15 }
    ensures { result ≡ good_map m }
{
    let k = m & (TEXT | DICTIONARY | NONE);
    (m & mask == m) & ((k == 0) | (k == TEXT) | (k == DICTIONARY) | (k == NONE))
}

// The record of this name whose text stands at a place.
fn text_head<'a>(s: &'a [u8], name: &'a [u8], at: usize) -> Option<Item<'a>>
    requires { at ≤ length s.now }
    ensures { ValueReads s.now 2 name.now at result }
{
    let text = long_field(s, at)?;
    Some(Item {
        name,
        kind: Kind::Text,
        at: text.from,
        next: text.to,
        count: 0,
    })
}

// The record with the map byte m and this name, its value at a place.
fn value_head<'a>(s: &'a [u8], m: u8, name: &'a [u8], at: usize) -> Option<Item<'a>>
    requires { (at ≤ length s.now) × (good_map m ≡ true) }
    ensures { ValueReads s.now m name.now at result }
{
    if m & TEXT != 0 {
        return text_head(s, name, at);
    }
    if m & DICTIONARY != 0 {
        if s.len() - at < 2 {
            return None;
        }
        return Some(Item {
            name,
            kind: Kind::Dictionary,
            at: at + 2,
            next: at + 2,
            count: word(s, at),
        });
    }
    let kind = if m & NONE != 0 {
        Kind::Nothing
    } else {
        Kind::Text
    };
    Some(Item {
        name,
        kind,
        at,
        next: at,
        count: 0,
    })
}

// Reads the record at a place, unless it breaks the layout.
pub fn read(s: &[u8], i: usize, mask: u8) -> Option<Item<'_>>
    requires { mask ≡ 15 }
    ensures { Reads s.now i result }
{
    if s.len() <= i {
        return None;
    }
    let m = s[i];
    if !allowed(m, mask) {
        return None;
    }
    if m & NAME == 0 {
        return value_head(s, m, &s[..0], i + 1);
    }
    let name = long_field(s, i + 1)?;
    value_head(s, m, &s[name.from..name.to], name.to)
}
