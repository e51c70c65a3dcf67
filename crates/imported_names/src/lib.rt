// Binding the names of an import (document 01, section 7).
#![tactic(auto)]

ghost use Rattle.std.specs.Prelude.{◌≡◌, true, [], ◌∷◌};
ghost use Rattle.rules.specs.Reader.{rounds};
ghost use Rattle.rules.specs.Sheet.{Value, good_value};
ghost use Rattle.rules.specs.Definitions.{star, listed, listed_more, word_round, names};
ghost use Rattle.sheet.specs.Find.{Tells};
ghost use Rattle.imported_names.specs.Names.{IsWord, IsGood, BindsOne, BindsNames};
ghost use Rattle.imported_names.specs.Words.{words};

use binding::sheet_buffer::SheetBuffer;
use refusal::Refusal;
use scan::Set;
use sheet::lookup::{Found, Walk, value};
use sheet::{Name, Sheet};

// Binds a word to a value of the sheet `other`.
fn bind_one(
    word: &[u8],
    other: &[u8],
    found: Found,
    left: &mut SheetBuffer<'_, '_>,
) -> Result<(), Refusal>
    requires { IsWord word.now × IsGood other.now found }
    ensures { (v : Value) → Tells other.now v found → good_value v 6 ≡ true → BindsOne word.now v left.old left.new result }
{
    left.records.bind_from(Name::Plain(word), other, found)
}

// Binds all names of the sheet `other`, in their order.
fn bind_all(other: &Sheet<'_>, left: &mut SheetBuffer<'_, '_>) -> Result<(), Refusal>
    ensures { BindsNames star other.now left.old left.new result }
{
    let s = other.bytes();
    for (_, o) in Walk::all(s) {
        bind_one(o.name, s, value(s, o), left)?;
    }
    Ok(())
}

// Looks a word up in the sheet `other`, and binds it where it is found.
fn bind_word(word: &[u8], other: &Sheet<'_>, left: &mut SheetBuffer<'_, '_>) -> Result<(), Refusal>
    requires { IsWord word.now }
    ensures { BindsNames (listed (word.now ∷ [])) other.now left.old left.new result }
{
    match other.lookup(Name::Plain(word)) {
        None => Ok(()),
        Some(found) => bind_one(word, other.bytes(), found, left),
    }
}

// Binds a word behind the first; the empty one is dropped.
fn bind_later(word: &[u8], other: &Sheet<'_>, left: &mut SheetBuffer<'_, '_>) -> Result<(), Refusal>
    requires { IsWord word.now }
    ensures { BindsNames (listed (listed_more [] word.now)) other.now left.old left.new result }
{
    let empty = word.len() == 0;
    if empty {
        return Ok(());
    }
    bind_word(word, other, left)
}

// Binds the words that a text begins with, each behind a `,` with spaces.
fn bind_more(text: &[u8], other: &Sheet<'_>, left: &mut SheetBuffer<'_, '_>) -> Result<(), Refusal>
    ensures { BindsNames (rounds word_round listed [] text.now).0 other.now left.old left.new result }
{
    let mut i: usize = 0;
    loop {
        let comma = scan::span(text, i, Set::Space);
        if !scan::starts_with(text, comma, b",") {
            return Ok(());
        }
        let from = scan::span(text, comma + 1, Set::Space);
        let to = scan::span(text, from, Set::Word);
        bind_later(&text[from..to], other, left)?;
        i = to;
    }
}

// Binds the words that a text begins with: one, which may be empty, and those behind it.
fn bind_listed(
    text: &[u8],
    other: &Sheet<'_>,
    left: &mut SheetBuffer<'_, '_>,
) -> Result<(), Refusal>
    ensures { BindsNames (words text.now).0 other.now left.old left.new result }
{
    let end = scan::span(text, 0, Set::Word);
    bind_word(&text[..end], other, left)?;
    bind_more(&text[end..], other, left)
}

// Binds the names that a text begins with, of those that the sheet `other` has, in the sheet in `left`.
pub fn bind_names(
    text: &[u8],
    other: &Sheet<'_>,
    left: &mut SheetBuffer<'_, '_>,
) -> Result<(), Refusal>
    ensures { BindsNames (names text.now).0 other.now left.old left.new result }
{
    if scan::starts_with(text, 0, b"*") {
        return bind_all(other, left);
    }
    bind_listed(text, other, left)
}
