// The step `#let` of a file of definitions, from behind its mark.
ghost use Rattle.std.specs.Prelude.{List, ℕ};
ghost use Rattle.rules.specs.Answer.{Answer};
ghost use Rattle.rules.specs.Sheet.{Records};
ghost use Rattle.rules.specs.Definitions.{Names, let_step};
ghost use Rattle.values.specs.Slots.{Room};
ghost use Rattle.binding.specs.Sheets.{SameSheet, sheet_in};
ghost use Rattle.definitions.specs.Steps.{Steps};

use binding::sheet_buffer::SheetBuffer;
use refusal::Refusal;
use scan::{Set, Text};
use sheet::Name;
use values::work::Work;

// Binds the name of a `#let`, each `-` made `_`, to the value behind it; how many bytes of the text that takes.
pub fn let_step(
    text: &Text<'_>,
    left: &mut SheetBuffer<'_, '_>,
    work: &mut [u8],
) -> Result<usize, Refusal>
    requires { Room work.old left.old.records.now.limit 6 }
    ensures over { SameSheet left.old left.new }
    ensures steps { (i : Records → List ℕ → Names → Answer Records) → Steps (let_step left.old.records.now.limit i (sheet_in left.old) text.now) text.now left.new result }
{
    let bytes = text.bytes();
    let from = scan::span(bytes, 0, Set::Blank);
    let to = scan::span(bytes, from, Set::Name);
    let at = scan::span(bytes, to, Set::EqualsOrBlank);
    let work = Work {
        bytes: work,
        limit: left.records.limit,
        levels: 6,
    };
    let v = values::value(&bytes[at..], &left.sheet(), work)?;
    let name = Name::Reference(&bytes[from..to]);
    left.records.bind_value(name, v.what.lead, v.what.own)?;
    Ok(at + v.used)
}
