// Includes (document 01, section 4): the resolver, which calls itself with one level fewer for an included file.
#![tactic(auto)]

ghost use Rattle.std.specs.Prelude.{[]};
ghost use Rattle.rules.specs.Run.{run};
ghost use Rattle.rules.specs.Files.{view};
ghost use Rattle.rules.specs.Includes.{inside_file, include_step};
ghost use Rattle.bundle.specs.Find.{entries_of};
ghost use Rattle.buffers.specs.Wrote.{Wrote};
ghost use Rattle.marks.specs.Read.{emit_of};
ghost use Rattle.includes.specs.Resolve.{Resolves};

use buffers::writer::Writer;
use bundle::Bundle;
use marked_files::open_file;
use marked_files::sources::put_source;
use marks::next_mark;
use marks::read::{Reader, Reading};
use paths::Path;
use refusal::Refusal;

// Puts what was read at a mark: a copied part, a source's block, or an included file, resolved, and a newline.
#[cycle(resolve)]
fn put_mark(
    bundle: &Bundle<'_>,
    folder: &[u8],
    what: Reading<'_>,
    w: &mut Writer<'_>,
    levels: usize,
) -> Result<(), Refusal>
    ensures { Wrote (emit_of (view (entries_of bundle.now)) (inside_file (view (entries_of bundle.now)) levels) folder.now what.entry) w.old w.new result }
{
    match what {
        Reading::Copied(part) => w.put(part),
        Reading::Source { path, language } => put_source(bundle, folder, path, language, w),
        Reading::Include(path) => {
            let mut joined = Path::empty();
            let file = open_file(bundle, folder, path, levels, &mut joined)?;
            resolve(bundle, file.folder(), file.text, w, levels - 1)?;
            w.put(b"\n")
        }
    }
}

// Resolves a text of a folder, with so many levels left; is each mark of the text itself whole (section 6)?
#[cycle(resolve)]
pub fn resolve(
    bundle: &Bundle<'_>,
    folder: &[u8],
    text: &[u8],
    w: &mut Writer<'_>,
    levels: usize,
) -> Result<bool, Refusal>
    ensures { Resolves (run (include_step (view (entries_of bundle.now)) (inside_file (view (entries_of bundle.now)) levels) folder.now) [] 0 text.now) w.old w.new result }
{
    let mut done: usize = 0;
    let mut whole = true;
    let mut reader = Reader::new(text);
    'marks: loop {
        let next = next_mark(text, done);
        w.put(&text[done..next.at])?;
        let Some(mark) = next.mark else {
            return Ok(whole);
        };
        let read = reader.read(done, next.at, mark);
        put_mark(bundle, folder, read.what, w, levels)?;
        done = read.next;
        whole = whole & read.whole;
    }
}
