// Walks over records: one by one, over what they hold, and to a name among those of a level.
ghost use Rattle.std.specs.Prelude.{◌≡◌, List, ℕ, length};
ghost use Rattle.std.specs.Ordering.{nat_cmp};
ghost use Rattle.std.specs.Cmp.Lexicographic.{slice_cmp};
ghost use Rattle.std.proofs.Math.Option.{Option};
ghost use Rattle.rules.specs.Sheet.{Value, Records, rec, encode, count, get, text_of};
ghost use Rattle.sheet.specs.Parts.{Part};
ghost use Rattle.sheet.specs.Items.{At, Describes, Holding, Has};
ghost use Rattle.sheet.specs.Name.{asked};
ghost use Rattle.sheet.specs.Find.{HasRecords, Tells, Gives, Places, Body, HasBody, Level};

use crate::Name;
use crate::head::{BINDING, ENTRY, Item, Kind, read};
use scan::Range;
use std::cmp::Ordering;

// A value that a lookup found, with its place in the sheet.
#[derive(Clone, Copy, Debug, PartialEq, Eq)]
pub enum Found {
    Nothing,
    Text(Range),
    Dictionary { records: Range, count: usize },
}

// The record at a place where there is one.
pub fn item(s: &[u8], i: usize) -> Item<'_>
    requires { At s.now i }
    ensures { (n : List ℕ) (v : Value) (r : Records) (j : ℕ) → Part s.now i (encode (rec n v r)) j → Describes s.now i n v r j result }
{
    read(s, i, BINDING | ENTRY).unwrap()
}

// The place behind so many records from a place on, with all that they hold.
pub fn skip(s: &[u8], at: usize, count: usize) -> usize
    requires { Has s.now at count }
    ensures { (r : Records) (j : ℕ) → Holding s.now at count r j → result ≡ j }
{
    let mut i = at;
    let mut remaining = count;
    while 0 < remaining {
        let o = item(s, i);
        i = o.next;
        remaining = remaining - 1 + o.count;
    }
    i
}

// The records from a place on up to another, each with its place. What a record holds is passed over when the next one is asked for.
#[derive(Drop)]
pub struct Walk<'a> {
    bytes: &'a [u8],
    at: usize,
    held: usize,
    end: usize,
}

impl<'a> Walk<'a> {
    ghost use Rattle.sheet.specs.Walk.{WalksOver};

    // All of them.
    pub fn all(bytes: &'a [u8]) -> Walk<'a>
        ensures { (r : Records) → bytes.now ≡ encode r → WalksOver result bytes.now (length bytes.now) r }
    {
        Walk::over(
            bytes,
            Range {
                from: 0,
                to: bytes.len(),
            },
        )
    }

    // The records of a level.
    pub fn over(bytes: &'a [u8], level: Range) -> Walk<'a>
        ensures { (r : Records) → Part bytes.now level.from (encode r) level.to → WalksOver result bytes.now level.to r }
    {
        Walk {
            bytes,
            at: level.from,
            held: 0,
            end: level.to,
        }
    }
}

impl<'a> Iterator for Walk<'a> {
    ghost use Rattle.sheet.specs.Walk.{CanWalk, Walks, walk_left};
    ghost use Rattle.std.specs.Iterator.{at_most};

    type Item = (usize, Item<'a>);

    ghost can_next = { CanWalk };

    ghost next_gives = { Walks };

    ghost remaining = { λ w. at_most (walk_left w) };

    fn next(&mut self) -> Option<(usize, Item<'a>)> {
        let i = skip(self.bytes, self.at, self.held);
        if self.end <= i {
            return None;
        }
        let o = item(self.bytes, i);
        self.at = o.next;
        self.held = o.count;
        Some((i, o))
    }
}

// How many records stand in a sheet, not counting those inside dictionaries.
pub fn count(s: &[u8]) -> usize
    requires { HasRecords s.now }
    ensures { (r : Records) → s.now ≡ encode r → result ≡ count r }
{
    Walk::all(s).count()
}

// The order of a name and of one that is asked for.
pub fn order(a: &[u8], b: Name<'_>) -> Ordering
    ensures { result ≡ slice_cmp nat_cmp a.now (asked b.entry) }
{
    // As `Iterator::cmp` it takes a fifth more instructions a lookup.
    for (x, y) in a.iter().zip(b.text()) {
        let o = x.cmp(&b.byte(*y));
        if o.is_ne() {
            return o;
        }
    }
    a.len().cmp(&b.len())
}

// The value of a record.
pub fn value(s: &[u8], o: Item<'_>) -> Found
    requires { HasBody s.now o }
    ensures { (v : Value) → Body s.now v o.entry → Tells s.now v result }
{
    match o.kind {
        Kind::Nothing => Found::Nothing,
        Kind::Text => Found::Text(Range {
            from: o.at,
            to: o.next,
        }),
        Kind::Dictionary => Found::Dictionary {
            records: Range {
                from: o.next,
                to: skip(s, o.next, o.count),
            },
            count: o.count,
        },
    }
}

// Looks a name up among the records of a level; the order of names ends the walk.
pub fn find(s: &[u8], level: Range, name: Name<'_>) -> Option<Found>
    requires { Level s.now level.from level.to }
    ensures { (l : Level s.now level.from level.to) → Gives s.now (get l.r (asked name.entry)) result }
{
    for (_, o) in Walk::over(s, level) {
        match order(o.name, name) {
            Ordering::Less => {}
            Ordering::Equal => return Some(value(s, o)),
            Ordering::Greater => return None,
        }
    }
    None
}

// Where the text stands that a lookup found; an empty part where it found none (E1).
pub fn text_place(found: Option<Found>) -> Range
    ensures { (s : List ℕ) (x : Option Value) → Gives s x found → Places s (text_of x) result.from result.to }
{
    match found.unwrap_or(Found::Nothing) {
        Found::Text(text) => text,
        Found::Nothing => Range { from: 0, to: 0 },
        Found::Dictionary { .. } => Range { from: 0, to: 0 },
    }
}
