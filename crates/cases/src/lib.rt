// The cases of a test program: fields of bytes behind each other, what a buffer must hold, and the report.
#![tactic(auto)]

ghost use Rattle.std.specs.Prelude.{[], ◌∷◌, ◌≡◌, ◌+◌, ◌%◌, ◌^◌, ◌≤◌, ◌++◌, ◌<◌, List, Bool, Some, IfSome, OnOk, IfOk, codes, count_by, decimal, length, not};
ghost use Rattle.std.specs.Io.KnownBytes.{Appends};
ghost use Rattle.std.specs.Iterator.{Drains, IsFinite, at_most};

use std::fmt;
use std::io::{Result, Write};

// The first field and what is behind it: a 16-bit length, low byte first, then its bytes. None where it is cut short.
fn split_field(bytes: &[u8]) -> Option<(&[u8], &[u8])>
    ensures { IfSome result (λ p. length p.1.now < length bytes.now) }
{
    let (size, rest) = bytes.split_first_chunk()?;
    rest.split_at_checked(usize::from(u16::from_le_bytes(*size)))
}

// Fields behind each other. One that is cut short is empty, and the last.
#[derive(Clone, Copy)]
pub struct Fields<'a>(pub &'a [u8]);

impl<'a> Fields<'a> {
    // The next field, empty where there is none.
    pub fn field(&mut self) -> &'a [u8]
        ensures { length self.new.0.now ≤ length self.old.0.now }
    {
        self.next().unwrap_or_default()
    }
}

impl<'a> Iterator for Fields<'a> {
    type Item = &'a [u8];

    ghost next_gives = { λ s r t. (length t.0.now ≤ length s.0.now) × IfSome r (λ _. length t.0.now < length s.0.now) };

    ghost remaining = { λ s. at_most (length s.0.now) };

    fn next(&mut self) -> Option<&'a [u8]> {
        if self.0.is_empty() {
            return None;
        }
        let (field, rest) = split_field(self.0).unwrap_or_default();
        self.0 = rest;
        Some(field)
    }
}

// The cases of a test program, each of which is read from the fields and tried.
pub trait Case: Drop {
    // Is the answer of the next case the one given? None where there is no case any more.
    fn next_same(&self, fields: &mut Fields<'_>) -> Option<bool>
        ensures { IfSome result (λ _. length fields.new.0.now < length fields.old.0.now) };
}

// The cases of an input, one behind the other.
#[derive(Drop)]
pub struct Cases<'a, C> {
    fields: Fields<'a>,
    case: C,
}

impl<'a, C: Case> Cases<'a, C> {
    pub fn of(case: C, input: &'a [u8]) -> Cases<'a, C>
        ensures case { result.case ≡ case }
        ensures fields { result.fields.0.now ≡ input.now }
    {
        Cases {
            fields: Fields(input),
            case,
        }
    }
}

impl<'a, C: Case> Iterator for Cases<'a, C> {
    type Item = bool;

    ghost remaining = { λ s. at_most (length s.fields.0.now) };

    fn next(&mut self) -> Option<bool> {
        self.case.next_same(&mut self.fields)
    }
}

// Does a buffer hold the text, and zero behind it?
pub fn holds(out: &[u8], text: &[u8]) -> bool {
    out.strip_prefix(text)
        .is_some_and(|behind| behind.iter().all(|x| *x == 0))
}

// Writes the number of a case that differs.
pub fn differs<W: Write>(case: u64, out: &mut W) -> Result<()>
    ensures { OnOk result (Appends (W.contents out.old) (W.contents out.new) (codes "differs: case " ++ decimal case ++ codes "\n")) }
{
    writeln!(out, "differs: case {case}")
}

// What was replayed.
#[derive(Clone, Copy, Default)]
pub struct Tally {
    pub cases: u64,
    pub differing: u64,
}

impl Tally {
    // Counts a case. The counts wrap.
    fn add(&mut self, same: bool)
        ensures cases { self.new.cases ≡ (self.old.cases + 1) % 2 ^ 64 }
        ensures differing { self.new.differing ≡ (self.old.differing + count_by not (same ∷ [])) % 2 ^ 64 }
    {
        self.cases = self.cases.wrapping_add(1);
        self.differing = self.differing.wrapping_add(u64::from(!same));
    }
}

impl fmt::Display for Tally {
    ghost output = { λ tally. Some (decimal tally.cases ++ codes " cases, " ++ decimal tally.differing ++ codes " differ") };

    fn fmt<W: fmt::Write>(&self, f: &mut fmt::Formatter<W>) -> fmt::Result {
        let cases = self.cases;
        let differing = self.differing;
        write!(f, "{cases} cases, {differing} differ")
    }
}

// Counts the cases, each of which is whether its answer is the one given, and writes the number of each that differs.
pub fn replay<W: Write, C: Iterator<Item = bool> + Drop>(cases: C, out: &mut W) -> Result<Tally>
    requires can { C.can_next cases }
    requires ends { IsFinite (C.remaining cases) }
    ensures { IfOk result (λ tally. (xs : List Bool) × Drains C.next_gives cases xs × (tally.cases ≡ length xs % 2 ^ 64) × (tally.differing ≡ count_by not xs % 2 ^ 64)) }
{
    let mut tally = Tally::default();
    for same in cases {
        if !same {
            differs(tally.cases, out)?;
        }
        tally.add(same);
    }
    Ok(tally)
}

// Writes how many cases there were, and how many differ.
pub fn report<W: Write>(tally: Tally, out: &mut W) -> Result<()>
    ensures { OnOk result (Appends (W.contents out.old) (W.contents out.new) (decimal tally.cases ++ codes " cases, " ++ decimal tally.differing ++ codes " differ\n")) }
{
    writeln!(out, "{tally}")
}
