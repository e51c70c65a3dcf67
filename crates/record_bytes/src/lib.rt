// A record's bytes in a sheet's buffer: its opening, which is all before its text or its records; and moves that make room for it.
#![tactic(auto)]

ghost use Rattle.std.specs.Prelude.{◌≡◌, ◌++◌, ◌+◌, ◌-◌, ◌≤◌, length};
ghost use Rattle.std.proofs.lemmas.List.Edits.{sets};
ghost use Rattle.scan.specs.Sets.{part};
ghost use Rattle.rules.specs.Sheet.{word16_bytes, field_bytes};
ghost use Rattle.sheet.specs.Name.{asked};
ghost use Rattle.record_bytes.specs.Moves.{Arranged};
ghost use Rattle.record_bytes.specs.Opening.{wide, lead_bit, number_of, open_len, opening, map_no, Opens};

use sheet::Name;
use sheet::head::{DICTIONARY, NAME, NONE, TEXT};

// What stands of a value before its own bytes, by its kind: a bit of the map byte, which the empty text has not, and the number that follows the name,
// a text's length or how many records a dictionary has.
#[derive(Clone, Copy, Debug, PartialEq, Eq)]
pub enum Lead {
    Empty,
    Nothing,
    Text(usize),
    Dictionary(usize),
}

impl Lead {
    // Its bit of the map byte.
    #[tactic(auto, unfolding(crate::specs::Opening::lead_bit))]
    fn bit(self) -> u8
        ensures { result ≡ lead_bit self }
    {
        match self {
            Lead::Empty => 0,
            Lead::Nothing => NONE,
            Lead::Text(_) => TEXT,
            Lead::Dictionary(_) => DICTIONARY,
        }
    }

    // The number that follows the name.
    #[tactic(auto, unfolding(crate::specs::Opening::number_of))]
    fn number(self) -> Option<usize>
        ensures { result ≡ number_of self }
    {
        match self {
            Lead::Text(n) | Lead::Dictionary(n) => Some(n),
            Lead::Empty | Lead::Nothing => None,
        }
    }
}

// How many bytes a field takes, with its length.
#[tactic(auto, unfolding(crate::specs::Opening::wide))]
fn sized(n: usize) -> usize
    requires { n ≤ 65535 }
    ensures { result ≡ wide n }
{
    if n == 0 { 0 } else { n + 2 }
}

// How many bytes of a record stand before its text or its records.
#[tactic(auto, using(crate::specs::Opening::wide_ge))]
pub fn opening_len(name: usize, lead: Lead) -> usize
    requires { name ≤ 65535 }
    ensures { result ≡ open_len name lead }
{
    let n = sized(name);
    match lead.number() {
        None => n + 1,
        Some(_) => n + 3,
    }
}

// Writes a 16-bit number, low byte first.
fn put_number(buf: &mut [u8], at: usize, k: usize)
    requires { (k ≤ 65535) × (at + 2 ≤ length buf.old) }
    ensures { buf.new ≡ sets buf.old at (word16_bytes k) }
{
    // Two stores: a store of a slice of two bytes is compiled as a call of memcpy, 45 instructions more for each binding.
    let [low, high] = (k as u16).to_le_bytes();
    buf[at] = low;
    buf[at + 1] = high;
}

// Writes a name, as it is asked for.
fn put_name(buf: &mut [u8], at: usize, name: Name<'_>)
    requires { at + length (asked name) ≤ length buf.old }
    ensures { buf.new ≡ sets buf.old at (asked name.entry) }
{
    for (i, x) in name.text().iter().enumerate() {
        buf[at + i] = name.byte(*x);
    }
}

// Writes a name with its length, or nothing for the empty one.
fn put_field(buf: &mut [u8], at: usize, name: Name<'_>)
    requires { (length (asked name) ≤ 65535) × (at + wide (length (asked name)) ≤ length buf.old) }
    ensures { buf.new ≡ sets buf.old at (field_bytes (asked name.entry)) }
{
    let len = name.len();
    if len == 0 {
        return;
    }
    put_number(buf, at, len);
    put_name(buf, at + 2, name);
}

// The map byte of a record.
fn map_of(name: usize, lead: Lead) -> u8
    ensures { result ≡ map_no name lead }
{
    let bit = lead.bit();
    if name == 0 { bit } else { bit | NAME }
}

// Writes a record up to its text or its records.
#[tactic(auto, using(crate::specs::Opening::open_wide))]
pub fn put_opening(buf: &mut [u8], at: usize, name: Name<'_>, lead: Lead)
    requires { Opens buf.old at (length (asked name)) lead }
    ensures { buf.new ≡ sets buf.old at (opening (asked name.entry) lead) }
{
    let len = name.len();
    buf[at] = map_of(len, lead);
    put_field(buf, at + 1, name);
    match lead.number() {
        None => {}
        Some(n) => put_number(buf, at + 1 + sized(len), n),
    }
}

// Moves the bytes from a place up to another down to a third, the first of them first.
fn move_down(buf: &mut [u8], from: usize, end: usize, to: usize)
    requires { (to ≤ from) × (from ≤ end) × (end ≤ length buf.old) }
    ensures { buf.new ≡ sets buf.old to (part buf.old from end) }
{
    let by = from - to;
    for k in from..end {
        buf[k - by] = buf[k];
    }
}

// Moves the bytes from a place up to another up to a third, the last of them first.
fn move_up(buf: &mut [u8], from: usize, end: usize, to: usize)
    requires { (from ≤ to) × (from ≤ end) × (to + (end - from) ≤ length buf.old) }
    ensures { buf.new ≡ sets buf.old to (part buf.old from end) }
{
    let by = to - from;
    for k in (from..end).rev() {
        buf[k + by] = buf[k];
    }
}

// Moves the bytes from a place up to another to a third. By loops, since copy_within is compiled as a call of memmove, which the library needs for nothing
// else; 32 bytes move at a time here, too. What a value of the same length leaves in its place is not copied onto itself.
pub fn shift(buf: &mut [u8], from: usize, end: usize, to: usize)
    requires { (from ≤ end) × (end ≤ length buf.old) × (to + (end - from) ≤ length buf.old) }
    ensures { buf.new ≡ sets buf.old to (part buf.old from end) }
{
    if to < from {
        move_down(buf, from, end, to);
    } else if from < to {
        move_up(buf, from, end, to);
    }
}

// Puts the bytes from a to b at a place, and behind them the sheet's tail, from `to` to n. Either may lie in the other's way.
pub fn arrange(buf: &mut [u8], at: usize, a: usize, b: usize, to: usize, n: usize)
    requires { Arranged buf.old at a b to n }
    ensures { buf.new ≡ sets buf.old at (part buf.old a b ++ part buf.old to n) }
{
    let e = at + (b - a);
    if e <= to {
        shift(buf, a, b, at);
        shift(buf, to, n, e);
        return;
    }
    shift(buf, to, n, e);
    let d = e - to;
    if b <= to {
        shift(buf, a, b, at);
        return;
    }
    if to <= a {
        shift(buf, a + d, b + d, at);
        return;
    }
    shift(buf, a, to, at);
    shift(buf, e, b + d, at + (to - a));
}
