// The marks `#include` and `#source-include` (document 01, section 4): where the next one stands, whether it is commented, and in `read` what
// stands there.
#![tactic(auto)]

ghost use Rattle.std.specs.Prelude.{◌≡◌, [], ◌≤◌, length, drop, reverse, take_while};
ghost use Rattle.scan.specs.Sets.{Starts, not_byte};
ghost use Rattle.rules.specs.Includes.{commented};
ghost use Rattle.marks.specs.Marks.{mark_at, mark_text, NextMark, stretch};

use scan::Set;

pub mod ahead;
pub mod read;

// The marks.
#[derive(Clone, Copy, Debug, PartialEq, Eq)]
pub enum Mark {
    Include,
    SourceInclude,
}

impl Mark {
    // The mark's bytes.
    fn text(self) -> &'static [u8]
        ensures { result.now ≡ mark_text self }
    {
        match self {
            Mark::Include => b"#include",
            Mark::SourceInclude => b"#source-include",
        }
    }

    // How many bytes the mark has.
    pub fn len(self) -> usize
        ensures { result ≡ length (mark_text self) }
    {
        self.text().len()
    }

    // Does the mark stand at a place?
    fn stands(self, text: &[u8], at: usize) -> bool
        requires { at ≤ length text.now }
        ensures { Starts (mark_text self) text.now at result }
    {
        scan::starts_with(text, at, self.text())
    }
}

// The mark that stands at a place.
fn mark_at(text: &[u8], at: usize) -> Option<Mark>
    requires { at ≤ length text.now }
    ensures { result ≡ mark_at (drop at text.now) }
{
    if Mark::Include.stands(text, at) {
        return Some(Mark::Include);
    }
    if Mark::SourceInclude.stands(text, at) {
        return Some(Mark::SourceInclude);
    }
    None
}

// The next mark and its place, or the end of the text.
#[derive(Clone, Copy)]
pub struct Next {
    pub at: usize,
    pub mark: Option<Mark>,
}

// The next mark from a place on.
pub fn next_mark(text: &[u8], from: usize) -> Next
    requires { from ≤ length text.now }
    ensures { NextMark text.now from result.at result.mark }
{
    let mut i = from;
    loop {
        let at = scan::find(text, i, b'#');
        if text.len() <= at {
            return Next { at, mark: None };
        }
        let mark = mark_at(text, at);
        match mark {
            Some(_) => return Next { at, mark },
            None => i = at + 1,
        }
    }
}

// How many bytes stand behind the last newline of a text.
fn last_line(text: &[u8]) -> usize
    ensures { result ≡ length (take_while (not_byte 10) (reverse text.now)) }
{
    text.iter().rev().take_while(|x| **x != b'\n').count()
}

// Does the last line of a text start, blanks skipped, with `//`?
pub fn commented(text: &[u8]) -> bool
    ensures { result ≡ commented (stretch [] text.now) }
{
    let line = &text[text.len() - last_line(text)..];
    let k = scan::span(line, 0, Set::Blank);
    scan::starts_with(line, k, b"//")
}
