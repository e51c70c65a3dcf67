// The files that marks name (document 01, section 4): an included file is opened; a source is put as a block.
#![tactic(auto)]

ghost use Rattle.rules.specs.Bytes.{join};
ghost use Rattle.rules.specs.Files.{view};
ghost use Rattle.bundle.specs.Find.{entries_of};
ghost use Rattle.refusal.specs.Numbers.{Listed};
ghost use Rattle.marked_files.specs.Files.{OpensFile};

use bundle::{Bundle, File, join_within, open_within};
use paths::Path;
use refusal::Refusal;

pub mod sources;

// Opens an included file, with so many levels left, and makes `joined` its path: 4, 5, 7, 6.
pub fn open_file<'p, 'a>(
    bundle: &Bundle<'a>,
    folder: &[u8],
    path: &[u8],
    levels: usize,
    joined: &'p mut Path,
) -> Result<File<'p, 'a>, Refusal>
    ensures opens { OpensFile (view (entries_of bundle.now)) levels (join folder.now path.now) result }
    ensures listed { Listed result }
{
    join_within(folder, path, joined)?;
    let text = bundle.fetch(joined.as_bytes())?;
    let opened = open_within(text, levels)?;
    Ok(File {
        path: joined,
        text: opened,
    })
}
