// The step at a `#` that begins no mark.
ghost use Rattle.std.specs.Prelude.{◌++◌};
ghost use Rattle.rules.specs.Reader.{bytes};
ghost use Rattle.sheet.specs.Records.{records_of};
ghost use Rattle.buffers.specs.Wrote.{Puts};
ghost use Rattle.expansion_steps.specs.Reference.{Refers};

use buffers::writer::Writer;
use refusal::Refusal;
use scan::{Read, Set};
use sheet::{Name, Sheet};

// Puts `#` and the run behind it.
fn put_run(run: &[u8], w: &mut Writer<'_>) -> Result<(), Refusal>
    ensures { Puts (bytes "#" ++ run.now) w.old w.new result }
{
    w.put_byte(b'#')?;
    w.put(run)
}

// `#`, behind which the text begins: copied before a byte that is no letter, and before a run and `(`, with the run; else puts the text of the run's reference.
pub fn reference_step(
    text: &[u8],
    sheet: &Sheet<'_>,
    w: &mut Writer<'_>,
) -> Read<Result<(), Refusal>>
    ensures { Refers (records_of sheet.now) text.now w.old w.new result }
{
    if !scan::sees(text, 0, Set::Letter) {
        return Read {
            what: w.put_byte(b'#'),
            used: 0,
        };
    }
    let end = scan::span(text, 0, Set::Run);
    let run = &text[..end];
    let what = if scan::at(text, end, b'(') {
        put_run(run, w)
    } else {
        w.put(sheet.text(Name::Reference(run)))
    };
    Read { what, used: end }
}
