// What stands at a mark, read whole before anything of it is output.
ghost use Rattle.std.specs.Prelude.{◌≡◌, [], ◌+◌, ◌≤◌, length, List, ℕ, drop};
ghost use Rattle.rules.specs.Reader.{bytes};
ghost use Rattle.rules.specs.Bytes.{trim};
ghost use Rattle.rules.specs.Includes.{include_mark, source_mark, include_step};
ghost use Rattle.scan.specs.Sets.{part, Stands};
ghost use Rattle.marks.specs.Marks.{IsMark, mark_text, stretch};
ghost use Rattle.marks.specs.Read.{Copies, Reads, Behinds, HasPath};

use crate::ahead::{Quoted, Quotes, Search};
use crate::{Mark, commented};
use paths::trim;
use scan::Set;
use std::marker::Model;

// A part of the text is copied; a file is included, its path trimmed; a source is shown, its path trimmed, with its language.
#[derive(Clone, Copy)]
pub enum Reading<'a> {
    Copied(&'a [u8]),
    Include(&'a [u8]),
    Source { path: &'a [u8], language: &'a [u8] },
}

// What was read, whether it is whole (section 6), and where reading goes on.
#[derive(Clone, Copy)]
pub struct Read<'a> {
    pub what: Reading<'a>,
    pub whole: bool,
    pub next: usize,
}

// A mark that is copied.
fn copied<'a>(text: &'a [u8], at: usize, behind: usize, whole: bool) -> Read<'a>
    requires { (at ≤ behind) × (behind ≤ length text.now) }
    ensures { Copies (part text.now at behind) whole behind result }
{
    Read {
        what: Reading::Copied(&text[at..behind]),
        whole,
        next: behind,
    }
}

// Where reading goes on behind a source, and whether that is behind a newline.
#[derive(Clone, Copy)]
pub struct Behind {
    pub whole: bool,
    pub next: usize,
}

// A text that is read for marks, with the searches for the quotes of a path, for those of a language, and for the newline behind `)`.
#[derive(Drop)]
pub struct Reader<'a> {
    text: &'a [u8],
    path: Quotes<'a>,
    language: Quotes<'a>,
    line: Search<'a, b'\n'>,
}

impl<'a> Model for Reader<'a> {
    ghost Value = { List ℕ };

    ghost view = { λ r. r.text.now };

    ghost invariant = { λ r. (r.path ≡ r.text.now) × (r.language ≡ r.text.now) × (r.line ≡ r.text.now) };
}

impl<'a> Reader<'a> {
    // The reader of a text.
    pub fn new(text: &'a [u8]) -> Reader<'a>
        ensures { result ≡ text.now }
    {
        Reader {
            text,
            path: Quotes::new(text),
            language: Quotes::new(text),
            line: Search::new(text),
        }
    }

    // `#include` at a place, read from behind it.
    fn include(&mut self, at: usize, behind: usize) -> Read<'a>
        requires { Stands (bytes "#include") self.old at behind }
        ensures reads { Reads include_mark self.old behind behind result }
        ensures same { self.new ≡ self.old }
    {
        match self.path.next(behind) {
            Some(path) => Read {
                what: Reading::Include(trim(path.text)),
                whole: true,
                next: path.next,
            },
            None => copied(self.text, at, behind, false),
        }
    }

    // Where reading goes on behind a source: behind the first newline after the first `)`; without it behind the `)`.
    fn behind_source(&mut self, at: usize) -> Behind
        requires { at ≤ length self.old }
        ensures ends { Behinds self.old at result }
        ensures same { self.new ≡ self.old }
    {
        let text = self.text;
        let paren = scan::find(text, at, b')');
        let from = scan::skip(text, paren);
        let to = self.line.next(from);
        if to < text.len() {
            return Behind {
                whole: true,
                next: to + 1,
            };
        }
        Behind {
            whole: false,
            next: from,
        }
    }

    // `#source-include` with its path, read from behind that.
    fn source(&mut self, behind: usize, path: Quoted<'a>) -> Read<'a>
        requires { HasPath self.old behind path }
        ensures reads { Reads source_mark self.old behind behind result }
        ensures same { self.new ≡ self.old }
    {
        let end = self.behind_source(behind);
        match self.language.next(path.next) {
            Some(language) => Read {
                what: Reading::Source {
                    path: trim(path.text),
                    language: language.text,
                },
                whole: end.whole,
                next: end.next,
            },
            None => Read {
                what: Reading::Source {
                    path: trim(path.text),
                    language: b"",
                },
                whole: false,
                next: end.next,
            },
        }
    }

    // `#source-include` at a place, read from behind it.
    fn source_include(&mut self, at: usize, behind: usize) -> Read<'a>
        requires { Stands (bytes "#source-include") self.old at behind }
        ensures reads { Reads source_mark self.old behind behind result }
        ensures same { self.new ≡ self.old }
    {
        let text = self.text;
        let i = scan::span(text, behind, Set::Blank);
        if !scan::at(text, i, b'(') {
            return copied(text, at, behind, i < text.len());
        }
        match self.path.next(i + 1) {
            Some(path) => self.source(behind, path),
            None => copied(text, at, behind, false),
        }
    }

    // A mark at a place; the remaining text began at `from`.
    pub fn read(&mut self, from: usize, at: usize, mark: Mark) -> Read<'a>
        requires { (from ≤ at) × (at ≤ length self.old) × IsMark mark (drop at self.old) }
        ensures reads { Reads (λ v inside g. include_step v inside g (stretch [] (part self.old from at))) self.old at (at + length (mark_text mark)) result }
        ensures same { self.new ≡ self.old }
    {
        let text = self.text;
        let behind = at + mark.len();
        let before = &text[from..at];
        if commented(before) {
            return copied(text, at, behind, true);
        }
        match mark {
            Mark::Include => self.include(at, behind),
            Mark::SourceInclude => self.source_include(at, behind),
        }
    }
}
