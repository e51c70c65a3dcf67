// What a step that writes comes to: is it whole (section 6), and how many bytes of the text are read.
ghost use Rattle.expansion_steps.specs.Call.{Shows};

use buffers::writer::Writer;
use refusal::Refusal;
use scan::Read;

// Outputs a text; this is all that the step does.
pub fn show(text: &[u8], step: Read<bool>, w: &mut Writer<'_>) -> Result<Read<bool>, Refusal>
    ensures { Shows text.now step w.old w.new result }
{
    w.put(text)?;
    Ok(step)
}
