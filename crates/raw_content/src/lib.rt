// A raw call's content (document 01, section 5): an expression, a file that is read, or a reference. It is measured when it is read.
#![tactic(auto)]

ghost use Rattle.std.specs.Prelude.{Some, Ok, take};
ghost use Rattle.rules.specs.Files.{view, opened};
ghost use Rattle.rules.specs.Sheet.{Lookup, resolve};
ghost use Rattle.rules.specs.Expansion.{given, raw_content, without_slash, read_call, content};
ghost use Rattle.bundle.specs.Find.{entries_of};
ghost use Rattle.sheet.specs.Records.{records_of};
ghost use Rattle.raw_content.specs.Content.{content_text, Told, Reads};

use buffers::writer::Writer;
use bundle::Bundle;
use calls::measure::Measure;
use first::read_first;
use refusal::Refusal;
use scan::{Read, Set};
use sheet::Sheet;
use string_ends::Pieces;

pub mod first;

// A content: an expression, whose references are looked up when it is put; a text that stands in the bundle or in the sheet.
#[derive(Clone, Copy)]
pub enum Content<'a> {
    Expression(&'a [u8]),
    Text(&'a [u8]),
}

impl<'a> Content<'a> {
    // Puts the first n bytes of its text, piece by piece.
    #[tactic(auto, unfolding(crate::specs::Content::content_text))]
    pub fn put_first<P: Pieces>(self, sheet: &Sheet<'_>, n: usize, to: &mut P)
        ensures { P.Takes to.old (take n (content_text (resolve (records_of sheet.now)) self.entry)) to.new }
    {
        match self {
            Content::Expression(text) => read_first(text, sheet, n, to),
            Content::Text(text) => to.take(&text[..n.min(text.len())]),
        }
    }
}

// A content, and what its text measures.
#[derive(Clone, Copy)]
pub struct Given<'a> {
    pub content: Content<'a>,
    pub size: Measure,
}

// A text that stands somewhere, as a content.
#[tactic(auto, unfolding(crate::specs::Content::Told, crate::specs::Content::content_text))]
fn text_content<'a>(text: &'a [u8], room: usize) -> Given<'a>
    ensures { (look : Lookup) → Told room look (given text.now) (Ok (Some result)) }
{
    Given {
        content: Content::Text(text),
        size: calls::measure::part(text, room),
    }
}

// The file of a `read`, as a content; one leading `/` of its path is dropped. 4, 5, 6.
fn file_content<'a>(
    bundle: &Bundle<'a>,
    path: &[u8],
    room: usize,
) -> Result<Option<Given<'a>>, Refusal>
    ensures { (look : Lookup) → Told room look (raw_content (opened (view (entries_of bundle.now)) (without_slash path.now))) result }
{
    let file = bundle.open_text(path.strip_prefix(b"/").unwrap_or(path))?;
    Ok(Some(text_content(file, room)))
}

// `read`, from behind it.
fn read_call<'a>(
    bundle: &Bundle<'a>,
    text: &[u8],
    sheet: &Sheet<'_>,
    room: usize,
) -> Read<Result<Option<Given<'a>>, Refusal>>
    ensures { Reads room (read_call (view (entries_of bundle.now)) (resolve (records_of sheet.now)) text.now) (resolve (records_of sheet.now)) text.now result }
{
    let i = scan::span(text, 0, Set::Blank);
    if !scan::at(text, i, b'(') {
        return Read {
            what: Ok(None),
            used: i,
        };
    }
    let mut path = [0; 256];
    let mut w = Writer::new(&mut path, Refusal::Path);
    let read = strings::expression(&text[i + 1..], sheet, &mut w);
    let end = scan::find(text, i + 1 + read.used, b')');
    let what = match read.what {
        Ok(()) => file_content(bundle, w.text(), room),
        Err(refusal) => Err(refusal),
    };
    Read {
        what,
        used: scan::skip(text, end),
    }
}

// A raw call's content, from behind its `(` and the blanks there; none where the call is handed back.
pub fn raw_content<'a>(
    bundle: &Bundle<'a>,
    text: &'a [u8],
    sheet: &Sheet<'a>,
    room: usize,
) -> Read<Result<Option<Given<'a>>, Refusal>>
    ensures { Reads room (content (view (entries_of bundle.now)) (resolve (records_of sheet.now)) text.now) (resolve (records_of sheet.now)) text.now result }
{
    if scan::at(text, 0, b'"') {
        let read = calls::measure::expression(text, sheet, room);
        let given = Given {
            content: Content::Expression(text),
            size: read.what,
        };
        return Read {
            what: Ok(Some(given)),
            used: read.used,
        };
    }
    if scan::starts_with(text, 0, b"read") {
        return read_call(bundle, &text[4..], sheet, room).behind(4);
    }
    let end = scan::span(text, 0, Set::Run);
    let found = strings::find_text(sheet, &text[..end]);
    Read {
        what: Ok(Some(text_content(found, room))),
        used: end,
    }
}
