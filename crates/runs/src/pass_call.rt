// The pass (01, section 6): includes into a middle buffer, then expansion.
ghost use Rattle.std.specs.Prelude.{◌≡◌};
ghost use Rattle.rules.specs.Run.{ends_in_newline};
ghost use Rattle.runs.specs.Pass.{Passes};

use crate::{expand_from, store_sheet};
use arguments::{check, sheet_limit};
use buffers::writer::Writer;
use includes::resolve;
use refusal::Refusal;
use scan::Text;

// The lengths of the text and of the sheet that stand in the buffers of a pass; is the text closed?
#[derive(Clone, Copy)]
pub struct Passed {
    pub len: usize,
    pub sheet: usize,
    pub closed: bool,
}

// Is a text empty, or is its last byte a newline?
fn ends_in_newline(text: &[u8]) -> bool
    ensures { result ≡ ends_in_newline text.now }
{
    match text.last() {
        None => true,
        Some(last) => *last == b'\n',
    }
}

// A pass: the arguments (2, 3, 4, 6, 9 for the sheet given), then in reading the includes with 10, and the expansion with 9 and 11.
pub fn pass(
    bundle: &[u8],
    folder: &[u8],
    text: &[u8],
    sheet: &[u8],
    middle: &mut [u8],
    out: &mut [u8],
    left: &mut [u8],
) -> Result<Passed, Refusal>
    ensures { Passes bundle.now folder.now text.now sheet.now middle.old middle.new out.old out.new left.old left.new result }
{
    let given = check(bundle, folder, text, sheet, sheet_limit(left.len()))?;
    let mut first = Writer::new(middle, Refusal::Middle);
    let whole = resolve(&given.bundle, folder, text, &mut first, 6)?;
    let end = first.at;
    let len = store_sheet(left, &given.sheet);
    let ran = expand_from(&given.bundle, &Text::new(&middle[..end]), out, left, len)?;
    Ok(Passed {
        len: ran.len,
        sheet: ran.sheet,
        closed: ends_in_newline(text) & whole & ran.whole,
    })
}
