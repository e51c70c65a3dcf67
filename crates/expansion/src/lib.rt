// The run of the expansion (document 01, section 5): plain text, and the step at each `#`.
#![tactic(auto)]

ghost use Rattle.rules.specs.Files.{view};
ghost use Rattle.bundle.specs.Find.{entries_of};
ghost use Rattle.buffers.specs.Wrote.{Puts};
ghost use Rattle.expansion.specs.Run.{Expands};

use binding::sheet_buffer::SheetBuffer;
use buffers::writer::Writer;
use bundle::Bundle;
use expansion_steps::step::step;
use refusal::Refusal;
use scan::Text;

// Puts the text before a step. Where a step follows on another there is none, and the writer is not called: it would copy nothing.
fn put_before(text: &[u8], w: &mut Writer<'_>) -> Result<(), Refusal>
    ensures { Puts text.now w.old w.new result }
{
    if text.len() == 0 {
        return Ok(());
    }
    w.put(text)
}

// Expands a text, for the sheet in `left`; is each step whole (section 6)?
pub fn expand(
    bundle: &Bundle<'_>,
    text: &Text<'_>,
    w: &mut Writer<'_>,
    left: &mut SheetBuffer<'_, '_>,
) -> Result<bool, Refusal>
    ensures { Expands (view (entries_of bundle.now)) text.now w.old w.new left.old left.new result }
{
    let bytes = text.bytes();
    let mut done: usize = 0;
    let mut whole = true;
    'steps: loop {
        let at = scan::find(bytes, done, b'#');
        put_before(&bytes[done..at], w)?;
        if bytes.len() <= at {
            return Ok(whole);
        }
        let read = step(bundle, &text.behind(at), w, left)?;
        done = at + read.used;
        whole = whole & read.what;
    }
}
