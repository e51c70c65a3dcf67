// The steps `#raw` and `#link`, each from its mark.
ghost use Rattle.std.specs.Prelude.{◌≡◌, true, ◌+◌, ◌≤◌, length, drop};
ghost use Rattle.rules.specs.Reader.{bytes};
ghost use Rattle.rules.specs.Files.{view};
ghost use Rattle.rules.specs.Sheet.{resolve};
ghost use Rattle.rules.specs.Expansion.{call_step, raw, link};
ghost use Rattle.scan.specs.Sets.{Starts};
ghost use Rattle.bundle.specs.Find.{entries_of};
ghost use Rattle.sheet.specs.Records.{records_of};
ghost use Rattle.expansion_steps.specs.Call.{Ends, Does};

use crate::output::show;
use buffers::writer::Writer;
use bundle::Bundle;
use calls::Output;
use refusal::Refusal;
use scan::{Read, Set};
use sheet::Sheet;

// What a call comes to whose `(` stands at `end`; handed back, the mark and the blanks behind it are output, and reading goes on from the `(`.
fn end_call(
    called: Read<Option<Output>>,
    text: &[u8],
    end: usize,
    w: &mut Writer<'_>,
) -> Result<Read<bool>, Refusal>
    requires { end + 1 + called.used ≤ length text.now }
    ensures { Ends called.what called.used text.now end w.old w.new result }
{
    let used = end + 1 + called.used;
    let Some(output) = called.what else {
        let back = Read {
            what: used < text.len(),
            used: end,
        };
        return show(&text[..end], back, w);
    };
    output.put?;
    Ok(Read {
        what: output.whole,
        used,
    })
}

// `#raw`, with which the text begins.
pub fn raw_step(
    bundle: &Bundle<'_>,
    text: &[u8],
    sheet: &Sheet<'_>,
    w: &mut Writer<'_>,
) -> Result<Read<bool>, Refusal>
    requires { Starts (bytes "#raw") text.now 0 true }
    ensures { Does 4 (call_step (bytes "#raw") (raw (view (entries_of bundle.now)) (resolve (records_of sheet.now))) (records_of sheet.now) (drop 4 text.now)) (records_of sheet.now) text.now w.old w.new result }
{
    let end = scan::span(text, 4, Set::LineBlank);
    if !scan::at(text, end, b'(') {
        return show(
            &text[..end],
            Read {
                what: true,
                used: end,
            },
            w,
        );
    }
    let called = raw_call::raw(bundle, &text[end + 1..], sheet, w)?;
    end_call(called, text, end, w)
}

// `#link`, with which the text begins.
pub fn link_step(text: &[u8], sheet: &Sheet<'_>, w: &mut Writer<'_>) -> Result<Read<bool>, Refusal>
    requires { Starts (bytes "#link") text.now 0 true }
    ensures { Does 5 (call_step (bytes "#link") (link (resolve (records_of sheet.now))) (records_of sheet.now) (drop 5 text.now)) (records_of sheet.now) text.now w.old w.new result }
{
    let end = scan::span(text, 5, Set::LineBlank);
    if !scan::at(text, end, b'(') {
        return show(
            &text[..end],
            Read {
                what: true,
                used: end,
            },
            w,
        );
    }
    let called = link_call::link(&text[end + 1..], sheet, w);
    end_call(called, text, end, w)
}
