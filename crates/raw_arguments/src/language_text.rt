// The text of a language: looked up once, measured, then put.
ghost use Rattle.std.specs.Prelude.{SomeIff, ◌≡◌, ◌≤◌, length};
ghost use Rattle.rules.specs.Sheet.{resolve};
ghost use Rattle.sheet.specs.Records.{records_of};
ghost use Rattle.raw_arguments.specs.Args.{lang_text};
ghost use Rattle.raw_arguments.specs.Lang.{text_of_lang};

use crate::Lang;
use sheet::Sheet;
use string_ends::Pieces;

// A language whose reference is looked up: a literal, from behind its quote; a text that stands as it is.
#[derive(Clone, Copy)]
pub enum LangText<'a> {
    Literal(&'a [u8]),
    Plain(&'a [u8]),
}

// Looks a language up. Without one the text is empty.
#[tactic(auto, unfolding(crate::specs::Lang::text_of_lang, crate::specs::Args::lang_text))]
pub fn look_up<'a>(sheet: &Sheet<'a>, lang: Option<Lang<'a>>) -> LangText<'a>
    ensures { text_of_lang result ≡ lang_text (resolve (records_of sheet.now)) lang.entry }
{
    let Some(given) = lang else {
        return LangText::Plain(b"");
    };
    match given {
        Lang::Literal(text) => LangText::Literal(text),
        Lang::Reference(run) => LangText::Plain(strings::find_text(sheet, run)),
    }
}

// How long the text is; none where that is more than the room.
#[tactic(auto, unfolding(crate::specs::Lang::text_of_lang))]
pub fn measure(lang: LangText<'_>, room: usize) -> Option<usize>
    ensures { SomeIff result (length (text_of_lang lang.entry) ≤ room) (length (text_of_lang lang.entry)) }
{
    match lang {
        LangText::Literal(text) => {
            let read = calls::measure::literal(text, room);
            let size = read.what;
            size.len
        }
        LangText::Plain(text) => buffers::within(room, 0, text.len()),
    }
}

// Puts the text, piece by piece.
#[tactic(auto, unfolding(crate::specs::Lang::text_of_lang))]
pub fn put<P: Pieces>(lang: LangText<'_>, to: &mut P)
    ensures { P.Takes to.old (text_of_lang lang.entry) to.new }
{
    match lang {
        LangText::Literal(text) => {
            string_ends::literal(text, to);
        }
        LangText::Plain(text) => to.take(text),
    }
}
