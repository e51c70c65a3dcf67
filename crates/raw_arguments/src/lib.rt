// The arguments of a raw call (document 01, section 5): its language, and whether it is a block.
#![tactic(auto)]

ghost use Rattle.rules.specs.Sheet.{Lookup};
ghost use Rattle.raw_arguments.specs.Args.{IsLanguage, Sets, IsArguments};

use refusal::Refusal;
use scan::{Read, Set};

pub mod language_text;

// What `lang` takes: a literal, from behind its quote; a reference's run.
#[derive(Clone, Copy)]
pub enum Lang<'a> {
    Literal(&'a [u8]),
    Reference(&'a [u8]),
}

// What `lang` takes: a literal at `"`, else a reference.
fn language<'a>(text: &'a [u8]) -> Read<Lang<'a>>
    ensures { (look : Lookup) → IsLanguage look text.now result }
{
    if scan::at(text, 0, b'"') {
        let literal = &text[1..];
        return Read {
            what: Lang::Literal(literal),
            used: 1 + string_ends::literal_end(literal),
        };
    }
    let used = scan::span(text, 0, Set::Run);
    Read {
        what: Lang::Reference(&text[..used]),
        used,
    }
}

// What an argument sets: the language; block, on or off.
#[derive(Clone, Copy)]
pub enum Setting<'a> {
    Language(Lang<'a>),
    Block(bool),
}

// The argument that a text begins with. Its name may be empty; under a name other than those two it sets nothing.
fn argument<'a>(text: &'a [u8]) -> Read<Option<Setting<'a>>>
    ensures { (look : Lookup) → Sets look text.now result }
{
    let end = scan::span(text, 0, Set::Word);
    let from = scan::span(text, end, Set::ColonOrBlank);
    if scan::same(&text[..end], b"lang") {
        let read = language(&text[from..]);
        return Read {
            what: Some(Setting::Language(read.what)),
            used: from + read.used,
        };
    }
    if scan::same(&text[..end], b"block") {
        let used = scan::span(text, from, Set::Letter);
        let on = scan::same(&text[from..used], b"true");
        return Read {
            what: Some(Setting::Block(on)),
            used,
        };
    }
    Read {
        what: None,
        used: from,
    }
}

// What the arguments come to: the language, if one is given; is it a block.
#[derive(Clone, Copy)]
pub struct Args<'a> {
    pub lang: Option<Lang<'a>>,
    pub block: bool,
}

// Reads the arguments of a raw call, up to `)` or the end. A later argument replaces an earlier one. A round that moves by nothing is refused.
pub fn arguments<'a>(text: &'a [u8]) -> Result<Read<Args<'a>>, Refusal>
    ensures { (look : Lookup) → IsArguments look text.now result }
{
    let mut lang = None;
    let mut block = false;
    let mut i: usize = 0;
    'rounds: loop {
        let from = scan::span(text, i, Set::CommaOrBlank);
        if !scan::sees(text, from, Set::NotParen) {
            return Ok(Read {
                what: Args { lang, block },
                used: from,
            });
        }
        let read = argument(&text[from..]);
        let next = from + read.used;
        match read.what {
            Some(Setting::Language(given)) => lang = Some(given),
            Some(Setting::Block(on)) => block = on,
            None => {
                if next == i {
                    return Err(Refusal::Stalled);
                }
            }
        }
        i = next;
    }
}
