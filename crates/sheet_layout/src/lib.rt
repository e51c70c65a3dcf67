// The layout check (refusal 3): every rule of section 2, each byte looked at a few times.
#![tactic(auto)]

ghost use Rattle.std.specs.Prelude.{◌≡◌, ◌≤◌, length, drop};
ghost use Rattle.rules.specs.Reader.{all};
ghost use Rattle.sheet_layout.specs.Check.{name_bytes, body, within, suits, last_of, Enters, EndsAt, Checks};

use scan::Set;
use sheet::head::{BINDING, ENTRY, Item, Kind, read};
use sheet::lookup::order;
use sheet::{Name, Sheet};
use std::cmp::Ordering;

// What a record stands among: a sheet's bindings, or a dictionary's entries.
#[derive(Clone, Copy)]
enum Level {
    Bindings,
    Entries,
}

// What its map byte may hold.
fn mask_of(level: Level) -> u8
    ensures { result ≡ 15 }
{
    match level {
        Level::Bindings => BINDING,
        Level::Entries => ENTRY,
    }
}

// Is a name of the bytes that its level allows? Each set is written out, so that it is scanned for by a loop of its own.
fn all_of(name: &[u8], level: Level) -> bool
    ensures { result ≡ all (name_bytes level) name.now }
{
    match level {
        Level::Bindings => scan::all(name, Set::Word),
        Level::Entries => scan::all(name, Set::Name),
    }
}

// Is the name of its level's bytes and behind the last one there, and the text of bytes below 128?
#[tactic(auto, unfolding(crate::specs::Check::suits, crate::specs::Check::last_of, crate::specs::Check::follows))]
fn keeps_rules(name: &[u8], text: &[u8], level: Level, last: Option<&[u8]>) -> bool
    ensures { result ≡ suits (name_bytes level) (last_of last.entry) name.now text.now }
{
    if !all_of(name, level) {
        return false;
    }
    if !scan::is_ascii(text) {
        return false;
    }
    let Some(last) = last else {
        return true;
    };
    order(last, Name::Plain(name)) == Ordering::Less
}

// The record at a place, if it keeps the rules of its level.
#[tactic(auto, unfolding(sheet::specs::Heads::Reads))]
fn entry<'a>(s: &'a [u8], i: usize, level: Level, last: Option<&[u8]>) -> Option<Item<'a>>
    ensures { Enters s.now i (name_bytes level) (last_of last.entry) result }
{
    let o = read(s, i, mask_of(level))?;
    if !keeps_rules(o.name, &s[o.at..o.next], level, last) {
        return None;
    }
    Some(o)
}

// Where what a record's value holds ends, with so many dictionary levels left, unless it breaks the layout.
fn inside(s: &[u8], o: Item<'_>, levels: usize) -> Option<usize>
    requires { o.next ≤ length s.now }
    ensures { EndsAt s.now o.entry.next (body (within levels) o.entry.kind o.entry.count (drop o.entry.next s.now)) result }
{
    let Kind::Dictionary = o.kind else {
        return Some(o.next);
    };
    if levels == 0 {
        return None;
    }
    let mut i = o.next;
    let mut last = None;
    for _ in 0..o.count {
        let held = entry(s, i, Level::Entries, last)?;
        i = inside(s, held, levels - 1)?;
        last = Some(held.name);
    }
    Some(i)
}

// The sheet of bytes that keep the layout; none where they break it.
pub fn check(s: &[u8]) -> Option<Sheet<'_>>
    ensures { Checks s.now result }
{
    if 65535 < s.len() {
        return None;
    }
    let mut i: usize = 0;
    let mut last = None;
    while i < s.len() {
        let o = entry(s, i, Level::Bindings, last)?;
        i = inside(s, o, 6)?;
        last = Some(o.name);
    }
    Some(Sheet::new(s))
}
