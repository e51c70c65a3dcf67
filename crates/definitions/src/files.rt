// A file of definitions (document 01, section 7): its steps, and the files that it imports, each read with one level fewer.
ghost use Rattle.std.specs.Prelude.{false, ℕ, ◌+◌, ◌≤◌, ◌<◌, IfOk, length, List};
ghost use Rattle.rules.specs.Reader.{bytes};
ghost use Rattle.rules.specs.Files.{view};
ghost use Rattle.rules.specs.Answer.{Answer};
ghost use Rattle.rules.specs.Sheet.{Records};
ghost use Rattle.rules.specs.Definitions.{Names, names, definition_step};
ghost use Rattle.rules.specs.Imports.{bind_names, file_sheet, imported_sheet};
ghost use Rattle.scan.specs.Sets.{Starts};
ghost use Rattle.bundle.specs.Find.{entries_of};
ghost use Rattle.sheet.specs.Records.{records_of};
ghost use Rattle.values.specs.Slots.{Room};
ghost use Rattle.binding.specs.Sheets.{SameSheet, sheet_in, ComesTo};
ghost use Rattle.definitions.specs.Steps.{Steps};
ghost use Rattle.definitions.specs.File.{file_step, import_in};

use crate::steps::let_step;
use binding::sheet_buffer::SheetBuffer;
use bundle::Bundle;
use definition_imports::find_import;
use imported_names::bind_names;
use paths::Path;
use refusal::Refusal;
use scan::Text;
use sheet::Sheet;

// The step at the start of a text where no `#import` stands: a `//` line, a `#let`, or a byte that is skipped.
fn other_step(
    text: &Text<'_>,
    left: &mut SheetBuffer<'_, '_>,
    work: &mut [u8],
) -> Result<usize, Refusal>
    requires { (0 < length text.now) × Starts (bytes "#import") text.now 0 false × Room work.old left.old.records.now.limit 6 }
    ensures over { SameSheet left.old left.new }
    ensures on { IfOk result (λ used. 0 < used) }
    ensures steps { (i : Records → List ℕ → Names → Answer Records) → Steps (definition_step left.old.records.now.limit i (sheet_in left.old) text.now) text.now left.new result }
{
    let bytes = text.bytes();
    if scan::starts_with(bytes, 0, b"//") {
        return Ok(scan::find(bytes, 2, b'\n'));
    }
    if scan::starts_with(bytes, 0, b"#let") {
        let used = let_step(&text.behind(4), left, work)?;
        return Ok(4 + used);
    }
    Ok(1)
}

// Binds the names that a text begins with, of the sheet in `left`, in the one that was saved, which takes its place; it moves to the start of `work`.
fn bind_imported(
    text: &[u8],
    left: &mut SheetBuffer<'_, '_>,
    saved: &Sheet<'_>,
    work: &mut [u8],
) -> Result<(), Refusal>
    requires { (length saved.now ≤ left.old.records.now.limit) × (left.old.records.now.limit ≤ length work.old) }
    ensures over { SameSheet left.old left.new }
    ensures binds { ComesTo (bind_names left.old.records.now.limit (records_of saved.now) (sheet_in left.old) (names text.now).0) left.new result }
{
    let n = left.records.len;
    buffers::store(work, 0, left.records.records());
    left.replace(saved);
    bind_names(text, &Sheet::new(&work[..n]), left)
}

// The step `#import`, from behind its mark: the names that it lists are bound, of the sheet of the file that it names. Not inlined, since its locals would be
// cleared at every step.
#[cycle(parse_step)]
#[inline(never)]
fn import_step<'a>(
    bundle: &Bundle<'a>,
    folder: &[u8],
    text: &'a [u8],
    left: &mut SheetBuffer<'_, '_>,
    work: &mut [u8],
    levels: usize,
) -> Result<usize, Refusal>
    requires { Room work.old left.old.records.now.limit (levels + 6) }
    ensures over { SameSheet left.old left.new }
    ensures steps { Steps (import_in (view (entries_of bundle.now)) levels folder.now left.old.records.now.limit (sheet_in left.old) text.now) text.now left.new result }
{
    let mut joined = Path::empty();
    let import = find_import(bundle, folder, text, levels, &mut joined);
    let Some(file) = import.what.file? else {
        return Ok(import.used);
    };
    let n = left.records.len;
    let (own, behind) = work.split_at_mut(left.records.limit);
    buffers::store(own, 0, left.records.records());
    parse(
        bundle,
        file.folder(),
        &Text::new(file.text),
        left,
        behind,
        levels - 1,
    )?;
    bind_imported(import.what.names, left, &Sheet::new(&own[..n]), behind)?;
    Ok(import.used)
}

// The step at the start of a text.
#[cycle(parse_step)]
fn step<'a>(
    bundle: &Bundle<'a>,
    folder: &[u8],
    text: &Text<'a>,
    left: &mut SheetBuffer<'_, '_>,
    work: &mut [u8],
    levels: usize,
) -> Result<usize, Refusal>
    requires { (0 < length text.now) × Room work.old left.old.records.now.limit (levels + 6) }
    ensures over { SameSheet left.old left.new }
    ensures on { IfOk result (λ used. 0 < used) }
    ensures steps { Steps (file_step (view (entries_of bundle.now)) levels folder.now left.old.records.now.limit (sheet_in left.old) text.now) text.now left.new result }
{
    let bytes = text.bytes();
    if !scan::starts_with(bytes, 0, b"#import") {
        return other_step(text, left, work);
    }
    let used = import_step(bundle, folder, &bytes[7..], left, work, levels)?;
    Ok(7 + used)
}

// Reads a file of definitions in a folder, with so many import levels left. Its sheet takes the place of the one in `left`.
#[cycle(parse_step)]
pub fn parse<'a>(
    bundle: &Bundle<'a>,
    folder: &[u8],
    text: &Text<'a>,
    left: &mut SheetBuffer<'_, '_>,
    work: &mut [u8],
    levels: usize,
) -> Result<(), Refusal>
    requires { Room work.old left.old.records.now.limit (levels + 6) }
    ensures over { SameSheet left.old left.new }
    ensures parses { ComesTo (file_sheet left.old.records.now.limit (view (entries_of bundle.now)) (imported_sheet left.old.records.now.limit (view (entries_of bundle.now)) levels) folder.now text.now) left.new result }
{
    left.replace(&Sheet::new(b""));
    let bytes = text.bytes();
    let mut done: usize = 0;
    'steps: while done < bytes.len() {
        let used = step(bundle, folder, &text.behind(done), left, work, levels)?;
        done += used;
    }
    Ok(())
}
