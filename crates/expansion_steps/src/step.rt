// One step of the expansion at a `#`, by the first of the marks that stands there.
ghost use Rattle.std.specs.Prelude.{true};
ghost use Rattle.rules.specs.Reader.{bytes};
ghost use Rattle.rules.specs.Files.{view};
ghost use Rattle.rules.specs.Expansion.{expansion_step};
ghost use Rattle.scan.specs.Sets.{Starts};
ghost use Rattle.bundle.specs.Find.{entries_of};
ghost use Rattle.sheet.specs.Records.{records_of};
ghost use Rattle.expansion_steps.specs.Call.{Does};
ghost use Rattle.expansion_steps.specs.Step.{Unbound, Steps};

use crate::call_steps::{link_step, raw_step};
use crate::reference::reference_step;
use binding::sheet_buffer::SheetBuffer;
use buffers::writer::Writer;
use bundle::Bundle;
use let_steps::{import_step, let_step};
use refusal::Refusal;
use scan::{Read, Text};
use sheet::Sheet;

// The step at a `#` that begins neither `#import` nor `#let`: it keeps the sheet.
fn writing_step(
    bundle: &Bundle<'_>,
    text: &[u8],
    sheet: &Sheet<'_>,
    w: &mut Writer<'_>,
) -> Result<Read<bool>, Refusal>
    requires { Unbound text.now }
    ensures { Does 1 (expansion_step (view (entries_of bundle.now)) (records_of sheet.now) text.now) (records_of sheet.now) text.now w.old w.new result }
{
    if scan::starts_with(text, 0, b"#raw") {
        return raw_step(bundle, text, sheet, w);
    }
    if scan::starts_with(text, 0, b"#link") {
        return link_step(text, sheet, w);
    }
    let read = reference_step(&text[1..], sheet, w);
    read.what?;
    Ok(Read {
        what: true,
        used: 1 + read.used,
    })
}

// The step at a `#`, with which the text begins.
pub fn step(
    bundle: &Bundle<'_>,
    text: &Text<'_>,
    w: &mut Writer<'_>,
    left: &mut SheetBuffer<'_, '_>,
) -> Result<Read<bool>, Refusal>
    requires { Starts (bytes "#") text.now 0 true }
    ensures { Steps (view (entries_of bundle.now)) text.now w.old w.new left.old left.new result }
{
    let bytes = text.bytes();
    if scan::starts_with(bytes, 0, b"#import") {
        return Ok(Read {
            what: true,
            used: 7 + import_step(&bytes[7..]),
        });
    }
    if scan::starts_with(bytes, 0, b"#let") {
        let read = let_step(&text.behind(4), left.records);
        read.what?;
        return Ok(Read {
            what: true,
            used: 4 + read.used,
        });
    }
    writing_step(bundle, bytes, &left.sheet(), w)
}
