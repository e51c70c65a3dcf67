// The steps `#import` and `#let` of the expansion (document 01, section 5): each drops its line, and writes nothing. Each reads from behind its mark.
#![tactic(auto)]

ghost use Rattle.sheet.specs.Records.{KeepsLayout};
ghost use Rattle.binding.specs.Buffer.{bytes_in};
ghost use Rattle.let_steps.specs.Let.{Imports, IsLine, BindsLine, Lets};

use binding::buffer::RecordBuffer;
use paths::trim;
use refusal::Refusal;
use scan::{Read, Set, Text};
use sheet::{Name, Sheet};

// `#import`: drops the line. How many bytes are read.
pub fn import_step(text: &[u8]) -> usize
    ensures { Imports text.now result }
{
    let end = scan::find(text, 0, b'\n');
    scan::skip(text, end)
}

// The line of a `#let`: its name, and the trimmed text behind it.
#[derive(Clone, Copy)]
pub struct Line<'a> {
    pub name: &'a [u8],
    pub content: &'a [u8],
}

// Reads the line of a `#let`.
fn let_line<'a>(text: &'a [u8]) -> Read<Line<'a>>
    ensures { IsLine text.now result }
{
    let from = scan::span(text, 0, Set::LineBlank);
    let to = scan::span(text, from, Set::Name);
    let behind = scan::span(text, to, Set::EqualsOrLineBlank);
    let newline = scan::find(text, behind, b'\n');
    let rest = &text[behind..newline];
    let trimmed = trim(rest);
    let line = Line {
        name: &text[from..to],
        content: trimmed,
    };
    Read {
        what: line,
        used: scan::skip(text, newline),
    }
}

// Binds the name of a line, each `-` made `_`: to the value that the text behind it is looked up as, or to that text itself.
fn bind_line(line: Line<'_>, left: &mut RecordBuffer<'_>) -> Result<(), Refusal>
    requires { KeepsLayout (bytes_in left.old) }
    ensures { BindsLine line.entry left.old left.new result }
{
    let value = Sheet::new(left.records()).lookup(Name::Plain(line.content));
    match value {
        None => left.bind_text(Name::Reference(line.name), line.content),
        Some(found) => left.bind_found(Name::Reference(line.name), found),
    }
}

// `#let`: binds the name of the line among the records of a sheet, unless these would be over their limit.
pub fn let_step(text: &Text<'_>, left: &mut RecordBuffer<'_>) -> Read<Result<(), Refusal>>
    requires { KeepsLayout (bytes_in left.old) }
    ensures { Lets text.now left.old left.new result }
{
    let line = let_line(text.bytes());
    Read {
        what: bind_line(line.what, left),
        used: line.used,
    }
}
