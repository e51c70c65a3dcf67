// The imports of a file of definitions (document 01, section 7), up to the file that one names.
#![tactic(auto)]

ghost use Rattle.std.specs.Prelude.{List, ℕ};
ghost use Rattle.rules.specs.Bytes.{join};
ghost use Rattle.rules.specs.Files.{view};
ghost use Rattle.bundle.specs.Find.{entries_of};
ghost use Rattle.paths.specs.Joined.{text};
ghost use Rattle.refusal.specs.Numbers.{Listed};
ghost use Rattle.definition_imports.specs.Import.{at_path, named, JoinsPath, IsPath, Opens, IsImport};

use buffers::writer::Writer;
use bundle::{Bundle, File, Found, join_within, open_within};
use paths::{Path, is_path};
use refusal::Refusal;
use scan::{Read, Set};

// An import that was read: its file, if there is one, or the refusal that it comes to; and the text from its names on.
#[derive(Clone, Copy)]
pub struct Import<'p, 'a> {
    pub file: Result<Option<File<'p, 'a>>, Refusal>,
    pub names: &'a [u8],
}

// Makes `joined` a path that is joined to a folder; refused where that breaks the path rule.
fn join_path(folder: &[u8], path: &[u8], joined: &mut Path) -> Result<(), Refusal>
    ensures joins { JoinsPath (join folder.now path.now) joined.new result }
    ensures listed { Listed result }
{
    join_within(folder, path, joined)?;
    if !is_path(joined.as_bytes()) {
        return Err(Refusal::Path);
    }
    Ok(())
}

// Opens the file that has a path, with so many levels left; none if there is neither file nor folder; 5 for a folder; 7, 6.
fn open_import<'p, 'a>(
    bundle: &Bundle<'a>,
    path: &'p Path,
    levels: usize,
) -> Result<Option<File<'p, 'a>>, Refusal>
    ensures opens { Opens (view (entries_of bundle.now)) levels (at_path (view (entries_of bundle.now)) levels (text path.now)) result }
    ensures listed { Listed result }
{
    match bundle.find(path.as_bytes()) {
        Found::Absent => Ok(None),
        Found::Folder => Err(Refusal::File),
        Found::File(content) => {
            let text = open_within(content.of(bundle.bytes()), levels)?;
            Ok(Some(File { path, text }))
        }
    }
}

// Opens the file that an import in a folder names, by the text of its literal, if there was room for that, and makes `joined` its path: 4 for one that breaks the
// path rule.
fn named_file<'p, 'a>(
    bundle: &Bundle<'a>,
    folder: &[u8],
    path: Result<&[u8], Refusal>,
    levels: usize,
    joined: &'p mut Path,
) -> Result<Option<File<'p, 'a>>, Refusal>
    ensures opens { (p : List ℕ) → IsPath p path.entry → Opens (view (entries_of bundle.now)) levels (named (view (entries_of bundle.now)) levels folder.now p) result }
    ensures listed { (p : List ℕ) → IsPath p path.entry → Listed result }
{
    join_path(folder, path?, joined)?;
    open_import(bundle, joined, levels)
}

// Reads an import of a file in a folder, from behind its mark, and opens the file that it names; `joined` is then its path. Its names hold no newline, so its line
// ends where theirs does. Not inlined, since the bytes of its literal would stand on the stack at every level of imports.
#[inline(never)]
pub fn find_import<'p, 'a>(
    bundle: &Bundle<'a>,
    folder: &[u8],
    text: &'a [u8],
    levels: usize,
    joined: &'p mut Path,
) -> Read<Import<'p, 'a>>
    ensures reads { IsImport (view (entries_of bundle.now)) levels folder.now text.now result }
    ensures listed { Listed result.what.file }
{
    let from = scan::span(text, 0, Set::Blank);
    if !scan::at(text, from, b'"') {
        let used = scan::find(text, from, b'\n');
        let names = &text[used..];
        let what = Import {
            file: Ok(None),
            names,
        };
        return Read { what, used };
    }
    let mut bytes = [0u8; 256];
    let mut w = Writer::new(&mut bytes, Refusal::Path);
    let read = strings::literal(&text[from + 1..], &mut w);
    let path = read.what.and(Ok(w.text()));
    let names = scan::span(text, from + 1 + read.used, Set::ColonOrBlank);
    let what = Import {
        file: named_file(bundle, folder, path, levels, joined),
        names: &text[names..],
    };
    let used = scan::find(text, names, b'\n');
    Read { what, used }
}
