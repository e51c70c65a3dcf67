// The include call, the expansion call and the pass up to the clearing of their buffers: what they answer, with the results at the starts
// of the buffers. What stands behind the results is not cleared.
#![tactic(auto)]

ghost use Rattle.std.specs.Prelude.{◌≤◌, length, take};
ghost use Rattle.rules.specs.Files.{view};
ghost use Rattle.bundle.specs.Find.{entries_of};
ghost use Rattle.runs.specs.Sheets.{Stored, HoldsSheet};
ghost use Rattle.runs.specs.Expansion.{ExpandsFrom};

use arguments::sheet_limit;
use binding::buffer::RecordBuffer;
use binding::sheet_buffer::SheetBuffer;
use buffers::writer::Writer;
use bundle::Bundle;
use expansion::expand;
use expansion_call::Expanded;
use refusal::Refusal;
use scan::Text;
use sheet::Sheet;

pub mod expansion_call;
pub mod include_call;
pub mod pass_call;

// A sheet, stored at the start of a buffer, and its length.
fn store_sheet(left: &mut [u8], sheet: &Sheet<'_>) -> usize
    requires { length sheet.now ≤ length left.old }
    ensures { Stored left.old left.new sheet.now result }
{
    let bytes = sheet.bytes();
    buffers::store(left, 0, bytes);
    bytes.len()
}

// Expands a text, for the sheet in the first `len` bytes of its buffer: 9, 11, 8, 4, 5, 6.
fn expand_from(
    bundle: &Bundle<'_>,
    text: &Text<'_>,
    out: &mut [u8],
    left: &mut [u8],
    len: usize,
) -> Result<Expanded, Refusal>
    requires { HoldsSheet left.old len }
    ensures { ExpandsFrom (view (entries_of bundle.now)) text.now (take len left.old) out.old out.new left.old left.new result }
{
    let limit = sheet_limit(left.len());
    let mut records = RecordBuffer {
        bytes: left,
        len,
        limit,
        last: 0,
    };
    let mut w = Writer::new(out, Refusal::Output);
    let mut bound = SheetBuffer {
        records: &mut records,
    };
    let whole = expand(bundle, text, &mut w, &mut bound)?;
    Ok(Expanded {
        len: w.at,
        sheet: records.len,
        whole,
    })
}
