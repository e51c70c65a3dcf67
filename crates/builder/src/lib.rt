// The public calls. Each meets one equation with its definition in the rules (crates/rules/specs/Calls.antt), for every input:
// the answer, and the whole contents of every writable buffer, accepted and refused alike.
#![tactic(auto)]

ghost use Rattle.std.specs.Prelude.{◌≡◌, length};
ghost use Rattle.rules.specs.Calls.{resolve_of, resolve_includes_of, test_load_of, preprocess_typst_of, parse_definitions_of, pass_of, find_file_of};
ghost use Rattle.sheet.specs.Find.{found_kind};
ghost use Rattle.lookups.specs.Text.{text_len};
ghost use Rattle.builder.specs.Definitions.{IsDefinedOf};
ghost use Rattle.builder.specs.Lookups.{IsResolvedOf, IsFoundFileOf};
ghost use Rattle.builder.specs.Runs.{IsExpandedOf, IsPassedOf};
ghost use Rattle.builder.specs.Texts.{IsTextOf};

use bundle::Found;
use refusal::Refusal;
use sheet::lookup::Found as Value;

// A lookup's answer. Kind: 0 missing, 1 none, 2 text, 3 dictionary. Of a text, its length in the output buffer; else 0.
#[repr(C)]
#[derive(Clone, Copy, Default)]
pub struct Resolved {
    pub number: u8,
    pub kind: u8,
    pub len: usize,
}

// A text's answer: its length in the output buffer.
#[repr(C)]
#[derive(Clone, Copy, Default)]
pub struct Text {
    pub number: u8,
    pub len: usize,
}

impl From<Result<usize, Refusal>> for Text {
    ghost from_gives = { IsTextOf };

    fn from(end: Result<usize, Refusal>) -> Text {
        match end {
            Ok(len) => Text { number: 0, len },
            Err(refusal) => Text {
                number: refusal.into(),
                ..Text::default()
            },
        }
    }
}

// The number of a kind.
fn kind(found: Option<Value>) -> u8
    ensures { result ≡ found_kind found }
{
    match found {
        None => 0,
        Some(Value::Nothing) => 1,
        Some(Value::Text(_)) => 2,
        Some(Value::Dictionary { .. }) => 3,
    }
}

// How long the text of what was found is; only a text has one.
fn text_len(found: Option<Value>) -> usize
    ensures { result ≡ text_len found }
{
    match found {
        None => 0,
        Some(Value::Nothing) => 0,
        Some(Value::Text(text)) => text.to.saturating_sub(text.from),
        Some(Value::Dictionary { .. }) => 0,
    }
}

impl From<Result<Option<Value>, Refusal>> for Resolved {
    ghost from_gives = { IsResolvedOf };

    fn from(looked: Result<Option<Value>, Refusal>) -> Resolved {
        match looked {
            Ok(found) => Resolved {
                number: 0,
                kind: kind(found),
                len: text_len(found),
            },
            Err(refusal) => Resolved {
                number: refusal.into(),
                ..Resolved::default()
            },
        }
    }
}

// What a text in a sheet is looked up as: 3, 6, 11 (E1).
pub fn resolve(sheet: &[u8], path: &[u8], out: &mut [u8]) -> Resolved
    ensures { resolve_of sheet.now path.now (length out.old) ≡ record { number = result.number; kind = result.kind; len = result.len; out = out.new } }
{
    let resolved = Resolved::from(lookups::resolve(sheet, path, out));
    buffers::clear_from(out, resolved.len);
    resolved
}

// A text with its includes resolved: 2, 4, 6, then in reading 11, 4, 5, 7, 6.
pub fn resolve_includes(bundle: &[u8], folder: &[u8], text: &[u8], out: &mut [u8]) -> Text
    ensures { resolve_includes_of bundle.now folder.now text.now (length out.old) ≡ record { number = result.number; len = result.len; out = out.new } }
{
    let included = Text::from(runs::include_call::resolve_includes(bundle, folder, text, out));
    buffers::clear_from(out, included.len);
    included
}

// The load that both suppliers make of a seed (E2), from the list of definition pieces where `definitions` is true, else from that of document pieces.
// Refused: 11.
pub fn test_load(seed: u32, definitions: bool, out: &mut [u8]) -> Text
    ensures { test_load_of seed definitions (length out.old) ≡ record { number = result.number; len = result.len; out = out.new } }
{
    let load = Text::from(test_load::test_load(seed, definitions, out));
    buffers::clear_from(out, load.len);
    load
}

// An expansion's answer: the lengths of the text in the output buffer and of the sheet that is left.
#[repr(C)]
#[derive(Clone, Copy, Default)]
pub struct Expanded {
    pub number: u8,
    pub len: usize,
    pub sheet: usize,
}

impl From<Result<runs::expansion_call::Expanded, Refusal>> for Expanded {
    ghost from_gives = { IsExpandedOf };

    fn from(ran: Result<runs::expansion_call::Expanded, Refusal>) -> Expanded {
        match ran {
            Ok(expanded) => Expanded {
                number: 0,
                len: expanded.len,
                sheet: expanded.sheet,
            },
            Err(refusal) => Expanded {
                number: refusal.into(),
                ..Expanded::default()
            },
        }
    }
}

// A text expanded, and the sheet with the text's bindings: 2, 3, 6, 9 for the sheet given, then in reading 9, 11, 8, 4, 5, 6.
pub fn preprocess_typst(
    bundle: &[u8],
    text: &[u8],
    sheet: &[u8],
    out: &mut [u8],
    left: &mut [u8],
) -> Expanded
    ensures { preprocess_typst_of bundle.now text.now sheet.now (length out.old) (length left.old) ≡ record { number = result.number; len = result.len; sheet_len = result.sheet; out = out.new; left = left.new } }
{
    let expanded = Expanded::from(runs::expansion_call::preprocess_typst(
        bundle, text, sheet, out, left,
    ));
    buffers::clear_from(out, expanded.len);
    buffers::clear_from(left, expanded.sheet);
    expanded
}

// The answer of the definitions call: the length of the sheet.
#[repr(C)]
#[derive(Clone, Copy, Default)]
pub struct Defined {
    pub number: u8,
    pub sheet: usize,
}

impl From<Result<usize, Refusal>> for Defined {
    ghost from_gives = { IsDefinedOf };

    fn from(end: Result<usize, Refusal>) -> Defined {
        match end {
            Ok(sheet) => Defined { number: 0, sheet },
            Err(refusal) => Defined {
                number: refusal.into(),
                ..Defined::default()
            },
        }
    }
}

// The sheet of a file of definitions: 1, 2, 4, 5, 6, then in reading 9, 7, 4, 5, 6.
pub fn parse_definitions(bundle: &[u8], path: &[u8], left: &mut [u8], work: &mut [u8]) -> Defined
    ensures { parse_definitions_of bundle.now path.now (length left.old) (length work.old) ≡ record { number = result.number; sheet_len = result.sheet; left = left.new; work = work.new } }
{
    let defined = Defined::from(define::parse_definitions(bundle, path, left, work));
    buffers::clear_from(left, defined.sheet);
    buffers::clear_from(work, 0);
    defined
}

// A pass's answer: the lengths of the text in the output buffer and of the sheet that is left, and whether the text is closed.
#[repr(C)]
#[derive(Clone, Copy, Default)]
pub struct Passed {
    pub number: u8,
    pub len: usize,
    pub sheet: usize,
    pub closed: bool,
}

impl From<Result<runs::pass_call::Passed, Refusal>> for Passed {
    ghost from_gives = { IsPassedOf };

    fn from(ran: Result<runs::pass_call::Passed, Refusal>) -> Passed {
        match ran {
            Ok(passed) => Passed {
                number: 0,
                len: passed.len,
                sheet: passed.sheet,
                closed: passed.closed,
            },
            Err(refusal) => Passed {
                number: refusal.into(),
                ..Passed::default()
            },
        }
    }
}

// A pass over a text, and the sheet with the text's bindings: 2, 3, 4, 6, 9 for the sheet given; then in reading the includes with 10,
// and the expansion with 9 and 11. Refused, every byte of the three buffers is zero.
pub fn pass(
    bundle: &[u8],
    folder: &[u8],
    text: &[u8],
    sheet: &[u8],
    middle: &mut [u8],
    out: &mut [u8],
    left: &mut [u8],
) -> Passed
    ensures { pass_of (record { bundle = bundle.now; folder = folder.now; middle_len = length middle.old; out_len = length out.old; left_len = length left.old }) sheet.now text.now ≡ record { number = result.number; len = result.len; sheet_len = result.sheet; closed = result.closed; middle = middle.new; out = out.new; left = left.new } }
{
    let passed = Passed::from(runs::pass_call::pass(
        bundle, folder, text, sheet, middle, out, left,
    ));
    buffers::clear_from(middle, 0);
    buffers::clear_from(out, passed.len);
    buffers::clear_from(left, passed.sheet);
    passed
}

// What a path is in a bundle. Kind: 0 absent, 1 folder, 2 file; a file's content stands at `start` in the bundle.
#[repr(C)]
#[derive(Clone, Copy, Default)]
pub struct FoundFile {
    pub number: u8,
    pub kind: u8,
    pub start: usize,
    pub len: usize,
}

impl From<Result<Found, Refusal>> for FoundFile {
    ghost from_gives = { IsFoundFileOf };

    fn from(found: Result<Found, Refusal>) -> FoundFile {
        match found {
            Ok(Found::Absent) => FoundFile::default(),
            Ok(Found::Folder) => FoundFile {
                kind: 1,
                ..FoundFile::default()
            },
            Ok(Found::File(content)) => FoundFile {
                kind: 2,
                start: content.from,
                len: content.to.saturating_sub(content.from),
                ..FoundFile::default()
            },
            Err(refusal) => FoundFile {
                number: refusal.into(),
                ..FoundFile::default()
            },
        }
    }
}

// Finds a path in a bundle: 2, 4.
pub fn find_file(bundle: &[u8], path: &[u8]) -> FoundFile
    ensures { find_file_of bundle.now path.now ≡ record { number = result.number; kind = result.kind; start = result.start; len = result.len } }
{
    FoundFile::from(lookups::find_file(bundle, path))
}
