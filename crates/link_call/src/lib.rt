// The link call: an address, and a text in a content block behind it. The address is read to find its end, then to compare it, up to the first term
// that differs, then to put it.
#![tactic(auto)]

ghost use Rattle.std.specs.Prelude.{Ok, ◌≡◌, ◌||◌};
ghost use Rattle.rules.specs.Reader.{empty, same};
ghost use Rattle.rules.specs.Strings.{expression};
ghost use Rattle.rules.specs.Sheet.{resolve};
ghost use Rattle.rules.specs.Expansion.{link_text, link_end, link};
ghost use Rattle.sheet.specs.Records.{records_of};
ghost use Rattle.buffers.specs.Wrote.{Puts};
ghost use Rattle.calls.specs.Called.{Calls};
ghost use Rattle.link_call.specs.Link.{Closes, behind_paren};

use buffers::writer::Writer;
use calls::Output;
use refusal::Refusal;
use scan::{Read, Set};
use sheet::Sheet;
use string_ends::Pieces;
use strings::piece_writer::PieceWriter;

// How a call ends: on its own `)` or `]`; the text of its content block, empty without one.
#[derive(Clone, Copy)]
pub struct Ending<'a> {
    pub whole: bool,
    pub text: &'a [u8],
}

// The content block, from behind a `)`.
fn content_block_end<'a>(text: &'a [u8]) -> Read<Ending<'a>>
    ensures { Closes behind_paren text.now result }
{
    let i = scan::span(text, 0, Set::LineBlank);
    if !scan::at(text, i, b'[') {
        return Read {
            what: Ending {
                whole: true,
                text: &text[..0],
            },
            used: i,
        };
    }
    let j = scan::find(text, i + 1, b']');
    let end = Ending {
        whole: scan::at(text, j, b']'),
        text: &text[i + 1..j],
    };
    Read {
        what: end,
        used: scan::skip(text, j),
    }
}

// The end of a call, from behind its address.
fn call_end<'a>(text: &'a [u8]) -> Read<Ending<'a>>
    ensures { Closes link_end text.now result }
{
    let i = scan::span(text, 0, Set::Blank);
    if scan::at(text, i, b')') {
        return content_block_end(&text[i + 1..]).behind(i + 1);
    }
    let j = scan::find(text, i, b')');
    let end = Ending {
        whole: scan::at(text, j, b')'),
        text: &text[..0],
    };
    Read {
        what: end,
        used: scan::skip(text, j),
    }
}

// Is a call's text its address alone? Then the content block's text is empty, or the address, with which it is compared while that is read.
fn address_alone(address: &[u8], sheet: &Sheet<'_>, text: &[u8]) -> bool
    ensures { result ≡ (empty text.now || same text.now (expression (resolve (records_of sheet.now)) address.now).0) }
{
    if text.len() == 0 {
        return true;
    }
    calls::compare::is_text(address, sheet, text)
}

// Puts the text of a call: the address alone, or a link of it with the content block's text.
fn put_link(
    address: &[u8],
    sheet: &Sheet<'_>,
    text: &[u8],
    w: &mut Writer<'_>,
) -> Result<(), Refusal>
    ensures { Puts (link_text (expression (resolve (records_of sheet.now)) address.now).0 text.now) w.old w.new result }
{
    let alone = address_alone(address, sheet, text);
    let mut to = PieceWriter {
        to: w,
        outcome: Ok(()),
    };
    if alone {
        strings::read_expression(address, sheet, &mut to);
        return to.outcome;
    }
    to.take(b"#link(\"");
    strings::read_expression(address, sheet, &mut to);
    to.take(b"\")[");
    to.take(text);
    to.take(b"]");
    to.outcome
}

// Reads a link call from behind its `(`, and puts its text. At `<` it is handed back; it is never refused.
pub fn link(text: &[u8], sheet: &Sheet<'_>, w: &mut Writer<'_>) -> Read<Option<Output>>
    ensures { Calls (link (resolve (records_of sheet.now)) text.now) text.now w.old w.new (Ok result) }
{
    let i = scan::span(text, 0, Set::Blank);
    if scan::at(text, i, b'<') {
        return Read {
            what: None,
            used: i,
        };
    }
    let address = &text[i..];
    let read = string_ends::expression_end(address);
    let end = call_end(&address[read..]).behind(i + read);
    let whole = end.what.whole;
    let put = put_link(address, sheet, end.what.text, w);
    Read {
        what: Some(Output { whole, put }),
        used: end.used,
    }
}
