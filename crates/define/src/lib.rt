// The definitions call (01, section 7) up to the clearing of its buffers: what it answers, with the sheet at the start of its buffer. What
// stands behind the sheet, and in the work buffer, is not cleared.
#![tactic(auto)]

ghost use Rattle.std.specs.Prelude.{length};
ghost use Rattle.rules.specs.Calls.{parse_definitions_result};
ghost use Rattle.define.specs.Define.{Defines};

use arguments::sheet_limit;
use binding::buffer::RecordBuffer;
use binding::sheet_buffer::SheetBuffer;
use definitions::files::parse;
use paths::parent;
use refusal::Refusal;
use scan::Text;

// The sheet of a file of definitions, and its length: 1, 2, 4, 5, 6, then in reading 9, 7, 4, 5, 6.
pub fn parse_definitions(
    bundle: &[u8],
    path: &[u8],
    left: &mut [u8],
    work: &mut [u8],
) -> Result<usize, Refusal>
    ensures { Defines (parse_definitions_result bundle.now path.now (length left.old) (length work.old)) left.old left.new work.old work.new result }
{
    let limit = sheet_limit(left.len());
    if work.len() < 16 * limit {
        return Err(Refusal::Work);
    }
    let Some(bundle) = bundle_layout::check(bundle) else {
        return Err(Refusal::Bundle);
    };
    let text = bundle.open_text(path)?;
    let mut records = RecordBuffer {
        bytes: left,
        len: 0,
        limit,
        last: 0,
    };
    let mut sheet = SheetBuffer {
        records: &mut records,
    };
    parse(&bundle, parent(path), &Text::new(text), &mut sheet, work, 6)?;
    Ok(records.len)
}
