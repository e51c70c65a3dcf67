// The arguments of the include call, of the expansion call and of a pass. The include call has no sheet and asks with the empty one; the
// expansion call has no folder and asks with the empty one. Both keep the rules.
#![tactic(auto)]

ghost use Rattle.std.specs.Prelude.{◌≡◌};
ghost use Rattle.rules.specs.Calls.{limit};
ghost use Rattle.arguments.specs.Given.{Judges};

use bundle::Bundle;
use refusal::Refusal;
use sheet::Sheet;

// The most bytes that a sheet may have in a buffer of n bytes.
#[tactic(auto, unfolding(rules::specs::Calls::limit))]
pub fn sheet_limit(n: usize) -> usize
    ensures { result ≡ limit n }
{
    n.min(65535)
}

// The bundle and the sheet of arguments that keep the rules.
#[derive(Drop)]
pub struct Given<'a> {
    pub bundle: Bundle<'a>,
    pub sheet: Sheet<'a>,
}

// The bundle and the sheet, where the arguments keep the rules. Refused: 2, 3, 4, 6, and 9 for the sheet. Inlined: else what
// it answers goes through memory, some 80 instructions a call.
#[inline(always)]
pub fn check<'a>(
    bundle: &'a [u8],
    folder: &[u8],
    text: &[u8],
    sheet: &'a [u8],
    limit: usize,
) -> Result<Given<'a>, Refusal>
    ensures { Judges bundle.now folder.now text.now sheet.now limit result }
{
    let over = limit < sheet.len();
    let Some(bundle) = bundle_layout::check(bundle) else {
        return Err(Refusal::Bundle);
    };
    let Some(sheet) = sheet_layout::check(sheet) else {
        return Err(Refusal::Sheet);
    };
    if !paths::is_folder(folder) {
        Err(Refusal::Path)
    } else if !scan::is_ascii(text) {
        Err(Refusal::Byte)
    } else if over {
        Err(Refusal::Limit)
    } else {
        Ok(Given { bundle, sheet })
    }
}
