// The C interface: the public calls under C names (include/wagtailfen.h). A slice is a pointer and then a length; answers are
// returned by value.
#![tactic(auto)]

ghost use Rattle.std.specs.Prelude.{◌≡◌, length};
ghost use Rattle.rules.specs.Calls.{resolve_of, resolve_includes_of, test_load_of, preprocess_typst_of, find_file_of, parse_definitions_of, pass_of};

#[unsafe(no_mangle)]
pub extern "C" fn wf_resolve(sheet: &[u8], path: &[u8], out: &mut [u8]) -> builder::Resolved
    ensures { resolve_of sheet.now path.now (length out.old) ≡ record { number = result.number; kind = result.kind; len = result.len; out = out.new } }
{
    builder::resolve(sheet, path, out)
}

#[unsafe(no_mangle)]
pub extern "C" fn wf_resolve_includes(
    bundle: &[u8],
    folder: &[u8],
    text: &[u8],
    out: &mut [u8],
) -> builder::Text
    ensures { resolve_includes_of bundle.now folder.now text.now (length out.old) ≡ record { number = result.number; len = result.len; out = out.new } }
{
    builder::resolve_includes(bundle, folder, text, out)
}

#[unsafe(no_mangle)]
pub extern "C" fn wf_test_load(seed: u32, definitions: bool, out: &mut [u8]) -> builder::Text
    ensures { test_load_of seed definitions (length out.old) ≡ record { number = result.number; len = result.len; out = out.new } }
{
    builder::test_load(seed, definitions, out)
}

#[unsafe(no_mangle)]
pub extern "C" fn wf_preprocess_typst(
    bundle: &[u8],
    text: &[u8],
    sheet: &[u8],
    out: &mut [u8],
    left: &mut [u8],
) -> builder::Expanded
    ensures { preprocess_typst_of bundle.now text.now sheet.now (length out.old) (length left.old) ≡ record { number = result.number; len = result.len; sheet_len = result.sheet; out = out.new; left = left.new } }
{
    builder::preprocess_typst(bundle, text, sheet, out, left)
}

#[unsafe(no_mangle)]
pub extern "C" fn wf_find_file(bundle: &[u8], path: &[u8]) -> builder::FoundFile
    ensures { find_file_of bundle.now path.now ≡ record { number = result.number; kind = result.kind; start = result.start; len = result.len } }
{
    builder::find_file(bundle, path)
}

#[unsafe(no_mangle)]
pub extern "C" fn wf_parse_definitions(
    bundle: &[u8],
    path: &[u8],
    left: &mut [u8],
    work: &mut [u8],
) -> builder::Defined
    ensures { parse_definitions_of bundle.now path.now (length left.old) (length work.old) ≡ record { number = result.number; sheet_len = result.sheet; left = left.new; work = work.new } }
{
    builder::parse_definitions(bundle, path, left, work)
}

#[unsafe(no_mangle)]
pub extern "C" fn wf_pass(
    bundle: &[u8],
    folder: &[u8],
    text: &[u8],
    sheet: &[u8],
    middle: &mut [u8],
    out: &mut [u8],
    left: &mut [u8],
) -> builder::Passed
    ensures { pass_of (record { bundle = bundle.now; folder = folder.now; middle_len = length middle.old; out_len = length out.old; left_len = length left.old }) sheet.now text.now ≡ record { number = result.number; len = result.len; sheet_len = result.sheet; closed = result.closed; middle = middle.new; out = out.new; left = left.new } }
{
    builder::pass(bundle, folder, text, sheet, middle, out, left)
}
