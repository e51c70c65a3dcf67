// Sources: the file that `#source-include` names is opened, and put as a block.
ghost use Rattle.std.specs.Prelude.{◌++◌};
ghost use Rattle.rules.specs.Reader.{bytes};
ghost use Rattle.rules.specs.Bytes.{join};
ghost use Rattle.rules.specs.Files.{view, opened, project_root};
ghost use Rattle.rules.specs.Includes.{last_newline, fenced};
ghost use Rattle.buffers.specs.Wrote.{Puts, Wrote};
ghost use Rattle.bundle.specs.Find.{entries_of};
ghost use Rattle.bundle.specs.Open.{Answers};
ghost use Rattle.marked_files.specs.Sources.{block_text};

use buffers::writer::Writer;
use bundle::{Bundle, join_within};
use paths::Path;
use refusal::Refusal;

// Opens a source, from the nearest folder upward that has `CITATION.cff`: 4, 5, 6.
fn open_source<'a>(bundle: &Bundle<'a>, folder: &[u8], path: &[u8]) -> Result<&'a [u8], Refusal>
    ensures { Answers (opened (view (entries_of bundle.now)) (join (project_root (view (entries_of bundle.now)) folder.now) path.now)) result }
{
    let mut joined = Path::empty();
    join_within(bundle.project_root(folder), path, &mut joined)?;
    bundle.open_text(joined.as_bytes())
}

// Puts the end of a source's block: a newline if the content lacks a last one, three backticks, newline.
fn put_end(content: &[u8], w: &mut Writer<'_>) -> Result<(), Refusal>
    ensures { Puts (last_newline content.now ++ bytes "```\n") w.old w.new result }
{
    let lacks_newline = content.last() != Some(&b'\n');
    if lacks_newline {
        return w.put(b"\n```\n");
    }
    w.put(b"```\n")
}

// Puts a source's block: three backticks, language, newline, content, its end.
fn put_block(lang: &[u8], content: &[u8], w: &mut Writer<'_>) -> Result<(), Refusal>
    ensures { Puts (block_text lang.now content.now) w.old w.new result }
{
    w.put(b"```")?;
    w.put(lang)?;
    w.put(b"\n")?;
    w.put(content)?;
    put_end(content, w)
}

// Opens a source and puts its block. Not inlined, since its paths would stand on the stack at every level of includes.
#[inline(never)]
pub fn put_source(
    bundle: &Bundle<'_>,
    folder: &[u8],
    path: &[u8],
    lang: &[u8],
    w: &mut Writer<'_>,
) -> Result<(), Refusal>
    ensures { Wrote (fenced lang.now (opened (view (entries_of bundle.now)) (join (project_root (view (entries_of bundle.now)) folder.now) path.now))) w.old w.new result }
{
    let content = open_source(bundle, folder, path)?;
    put_block(lang, content, w)
}
