// The raw call (document 01, section 5): read whole and measured; then 11 is decided; then it is written.
#![tactic(auto)]

ghost use Rattle.std.specs.Prelude.{SomeIff, [], true, false, ℕ, ◌+◌, ◌≤◌, take};
ghost use Rattle.rules.specs.Files.{view};
ghost use Rattle.rules.specs.Sheet.{resolve};
ghost use Rattle.rules.specs.Expansion.{raw_text, raw};
ghost use Rattle.bundle.specs.Find.{entries_of};
ghost use Rattle.buffers.specs.Wrote.{Puts};
ghost use Rattle.sheet.specs.Records.{records_of};
ghost use Rattle.calls.specs.Called.{Calls};
ghost use Rattle.calls.specs.Measure.{Measures};
ghost use Rattle.raw_arguments.specs.Args.{lang_text};
ghost use Rattle.raw_arguments.specs.Lang.{text_of_lang};
ghost use Rattle.raw_content.specs.Content.{content_text};
ghost use Rattle.raw_call.specs.Raw.{line_of, block_of, PutsWhole};

use buffers::within;
use buffers::writer::Writer;
use bundle::Bundle;
use calls::Output;
use raw_arguments::language_text::{self, LangText};
use raw_arguments::{Args, arguments};
use raw_content::{Content, Given, raw_content};
use refusal::Refusal;
use scan::{Read, Set};
use sheet::Sheet;
use string_ends::Pieces;
use strings::piece_writer::PieceWriter;

// A measured length, where there is room for so many bytes between single backticks.
fn line_len(room: usize, at: usize, len: Option<usize>) -> Option<usize>
    ensures { (n : ℕ) → SomeIff len (n ≤ room) n → SomeIff result (at + (2 + n) ≤ room) n }
{
    let n = len?;
    within(room, within(room, at, 2)?, n)?;
    Some(n)
}

// A measured length, where there is room for so many bytes as a block, with a language of a measured length.
fn block_len(room: usize, at: usize, lang: Option<usize>, len: Option<usize>) -> Option<usize>
    ensures { (l n : ℕ) → SomeIff lang (l ≤ room) l → SomeIff len (n ≤ room) n → SomeIff result (at + (9 + l + n) ≤ room) n }
{
    let n = len?;
    within(room, within(room, within(room, at, 9)?, lang?)?, n)?;
    Some(n)
}

// Puts the first n bytes of a content. A text that stands somewhere is one piece, which the writer puts without the reader that hands pieces on.
#[tactic(auto, unfolding(raw_content::specs::Content::content_text))]
fn put_content(
    content: Content<'_>,
    n: usize,
    sheet: &Sheet<'_>,
    w: &mut Writer<'_>,
) -> Result<(), Refusal>
    ensures { Puts (take n (content_text (resolve (records_of sheet.now)) content.entry)) w.old w.new result }
{
    if let Content::Text(text) = content {
        return w.put(&text[..n.min(text.len())]);
    }
    let mut to = PieceWriter {
        to: w,
        outcome: Ok(()),
    };
    content.put_first(sheet, n, &mut to);
    to.outcome
}

// Puts the first n bytes of a content between single backticks. Each backtick is put as a byte: as a piece it would be stored by a call.
fn put_line(
    content: Content<'_>,
    n: usize,
    sheet: &Sheet<'_>,
    w: &mut Writer<'_>,
) -> Result<(), Refusal>
    ensures { Puts (line_of (take n (content_text (resolve (records_of sheet.now)) content.entry))) w.old w.new result }
{
    w.put_byte(b'`')?;
    put_content(content, n, sheet, w)?;
    w.put_byte(b'`')
}

// Puts the first n bytes of a content as a block.
fn put_block(
    content: Content<'_>,
    n: usize,
    lang: LangText<'_>,
    sheet: &Sheet<'_>,
    w: &mut Writer<'_>,
) -> Result<(), Refusal>
    ensures { Puts (block_of (take n (content_text (resolve (records_of sheet.now)) content.entry)) (text_of_lang lang.entry)) w.old w.new result }
{
    let mut to = PieceWriter {
        to: w,
        outcome: Ok(()),
    };
    to.take(b"```");
    language_text::put(lang, &mut to);
    to.take(b"\n");
    content.put_first(sheet, n, &mut to);
    to.take(b"\n```\n");
    to.outcome
}

// Puts a raw call's text, if there is room for it: a content between single backticks, or without its trailing blanks as a block.
fn put_raw(
    given: Given<'_>,
    args: Args<'_>,
    sheet: &Sheet<'_>,
    w: &mut Writer<'_>,
) -> Result<(), Refusal>
    requires { Measures w.old.room (content_text (resolve (records_of sheet.now)) given.content) given.size }
    ensures { PutsWhole (raw_text (content_text (resolve (records_of sheet.now)) given.entry.content) (lang_text (resolve (records_of sheet.now)) args.entry.lang) args.entry.block) w.old w.new result }
{
    let size = given.size;
    if args.block {
        let lang = language_text::look_up(sheet, args.lang);
        let len = language_text::measure(lang, w.room);
        let Some(n) = block_len(w.room, w.at, len, size.kept) else {
            return Err(w.full);
        };
        return put_block(given.content, n, lang, sheet, w);
    }
    let Some(n) = line_len(w.room, w.at, size.len) else {
        return Err(w.full);
    };
    put_line(given.content, n, sheet, w)
}

// A raw call, from behind its `(`: 4, 5, 6 of its file, then 8; then its output, or 11.
pub fn raw(
    bundle: &Bundle<'_>,
    text: &[u8],
    sheet: &Sheet<'_>,
    w: &mut Writer<'_>,
) -> Result<Read<Option<Output>>, Refusal>
    ensures { Calls (raw (view (entries_of bundle.now)) (resolve (records_of sheet.now)) text.now) text.now w.old w.new result }
{
    let from = scan::span(text, 0, Set::Blank);
    let read = raw_content(bundle, &text[from..], sheet, w.room).behind(from);
    let Some(given) = read.what? else {
        return Ok(Read {
            what: None,
            used: read.used,
        });
    };
    let args = arguments(&text[read.used..])?.behind(read.used);
    let whole = scan::at(text, args.used, b')');
    let used = scan::skip(text, args.used);
    let put = put_raw(given, args.what, sheet, w);
    Ok(Read {
        what: Some(Output { whole, put }),
        used,
    })
}
