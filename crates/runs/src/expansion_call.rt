// The expansion call (01, section 5).
ghost use Rattle.runs.specs.Expansion.{ExpandsText};

use crate::{expand_from, store_sheet};
use arguments::{check, sheet_limit};
use refusal::Refusal;
use scan::Text;

// The lengths of the text and of the sheet that an expansion leaves in its buffers; is each of its steps whole?
#[derive(Clone, Copy)]
pub struct Expanded {
    pub len: usize,
    pub sheet: usize,
    pub whole: bool,
}

// A text expanded, and the sheet with the text's bindings: 2, 3, 6, 9 for the sheet given, then in reading 9, 11, 8, 4, 5, 6.
pub fn preprocess_typst(
    bundle: &[u8],
    text: &[u8],
    sheet: &[u8],
    out: &mut [u8],
    left: &mut [u8],
) -> Result<Expanded, Refusal>
    ensures { ExpandsText bundle.now text.now sheet.now out.old out.new left.old left.new result }
{
    let given = check(bundle, b"", text, sheet, sheet_limit(left.len()))?;
    let len = store_sheet(left, &given.sheet);
    expand_from(&given.bundle, &Text::new(text), out, left, len)
}
