// The include call (01, section 4).
ghost use Rattle.runs.specs.Includes.{ResolvesText};

use arguments::check;
use buffers::writer::Writer;
use includes::resolve;
use refusal::Refusal;

// A text with its includes resolved, and its length: 2, 4, 6, then in reading 11, 4, 5, 7, 6.
pub fn resolve_includes(
    bundle: &[u8],
    folder: &[u8],
    text: &[u8],
    out: &mut [u8],
) -> Result<usize, Refusal>
    ensures { ResolvesText bundle.now folder.now text.now out.old out.new result }
{
    let given = check(bundle, folder, text, b"", 0)?;
    let mut w = Writer::new(out, Refusal::Output);
    resolve(&given.bundle, folder, text, &mut w, 6)?;
    Ok(w.at)
}
