// The sheet (document 01, section 2): its records by masks, and lookup.
#![tactic(auto)]

ghost use Rattle.std.specs.Prelude.{◌≡◌, List, ℕ, ◌≤◌, length};
ghost use Rattle.std.proofs.Math.Option.{Option};
ghost use Rattle.scan.specs.Sets.{part};
ghost use Rattle.rules.specs.Sheet.{Value, resolve, text_of};
ghost use Rattle.sheet.specs.Name.{spelled, asked, asked_byte};
ghost use Rattle.sheet.specs.Find.{Gives};
ghost use Rattle.sheet.specs.Records.{records_of, KeepsLayout};

use lookup::{Found, find, text_place};
use scan::{Range, Set};
use std::marker::Model;

pub mod head;
pub mod lookup;

// A name or a path that is asked for: as it stands, or a reference, in which each `-` is made `_`.
#[derive(Clone, Copy)]
pub enum Name<'a> {
    Plain(&'a [u8]),
    Reference(&'a [u8]),
}

impl<'a> Name<'a> {
    // As it stands.
    pub fn text(self) -> &'a [u8]
        ensures { result.now ≡ spelled self.entry }
    {
        match self {
            Name::Plain(text) => text,
            Name::Reference(text) => text,
        }
    }

    // How long it is.
    pub fn len(self) -> usize
        ensures { result ≡ length (asked self.entry) }
    {
        self.text().len()
    }

    // A part of it.
    pub fn part(self, from: usize, to: usize) -> Name<'a>
        requires { (from ≤ to) × (to ≤ length (spelled self)) }
        ensures { asked result ≡ part (asked self.entry) from to }
    {
        match self {
            Name::Plain(text) => Name::Plain(&text[from..to]),
            Name::Reference(text) => Name::Reference(&text[from..to]),
        }
    }

    // A byte of it, as it is asked for.
    pub fn byte(self, x: u8) -> u8
        ensures { result ≡ asked_byte self.entry x }
    {
        match self {
            Name::Plain(_) => x,
            Name::Reference(_) => if x == b'-' { b'_' } else { x },
        }
    }
}

// A sheet that keeps its layout. A contract sees its bytes.
#[derive(Drop)]
pub struct Sheet<'a> {
    bytes: &'a [u8],
}

impl<'a> Model for Sheet<'a> {
    ghost Value = { List ℕ };

    ghost view = { λ s. s.bytes.now };

    ghost invariant = { λ s. KeepsLayout s.bytes.now };
}

impl<'a> Sheet<'a> {
    // The sheet of bytes that keep the layout.
    pub fn new(bytes: &'a [u8]) -> Sheet<'a>
        requires { KeepsLayout bytes.now }
        ensures { result ≡ bytes.now }
    {
        Sheet { bytes }
    }

    // Its bytes.
    pub fn bytes(&self) -> &'a [u8]
        ensures same { result.now ≡ self.now }
        ensures layout { KeepsLayout self.now }
    {
        self.bytes
    }

    // Looks a path up: a binding, then keys, parted by `.`.
    pub fn lookup(&self, path: Name<'_>) -> Option<Found>
        ensures { Gives self.now (resolve (records_of self.now) (asked path.entry)) result }
    {
        let s = self.bytes;
        let text = path.text();
        let mut level = Range {
            from: 0,
            to: s.len(),
        };
        let mut p: usize = 0;
        'pieces: loop {
            let q = scan::span(text, p, Set::NotDot);
            let found = find(s, level, path.part(p, q));
            if q == text.len() {
                return found;
            }
            let Found::Dictionary { records, .. } = found? else {
                return None;
            };
            level = records;
            p = q + 1;
        }
    }

    // The text of what a lookup found; empty where it is no text (E1).
    pub fn found_text(&self, found: Option<Found>) -> &'a [u8]
        ensures { (x : Option Value) → Gives self.now x found → result.now ≡ text_of x }
    {
        let place = text_place(found);
        self.bytes.get(place.from..place.to).unwrap_or(&[])
    }

    // The text that a path is looked up as.
    pub fn text(&self, path: Name<'_>) -> &'a [u8]
        ensures { result.now ≡ text_of (resolve (records_of self.now) (asked path.entry)) }
    {
        self.found_text(self.lookup(path))
    }
}
