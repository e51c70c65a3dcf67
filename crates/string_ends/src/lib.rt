// Literals and expressions (document 01, section 3): what is done with a text that is read piece by piece, and where it ends, which is the same
// for every sheet.
#![tactic(auto)]

ghost use Rattle.std.specs.Prelude.{◌≡◌, List, ℕ, [], ◌++◌, true};
ghost use Rattle.rules.specs.Bytes.{underscored};
ghost use Rattle.rules.specs.Sheet.{Lookup, text_of};
ghost use Rattle.rules.specs.Strings.{escape, literal, expression};
ghost use Rattle.string_ends.specs.Ends.{Ends, Reads, Begins, ReadsRound, ReadsExpression};

use scan::Read;

// What takes a text, piece by piece.
pub trait Pieces {
    // Before a text, the text, and behind it.
    ghost Takes: { Self → List ℕ → Self → Type 0 };

    // Takes a piece.
    fn take(&mut self, piece: &[u8])
        ensures { Takes self.old piece.now self.new };

    ghost none: { (a : Self) → Takes a [] a };

    ghost more: { (a b c : Self) (v w : List ℕ) → Takes a v b → Takes b w c → Takes a (v ++ w) c };
}

// What takes an expression's text: its literals piece by piece, and the texts that its references stand for.
pub trait Terms: Pieces {
    // What references are looked up by.
    ghost Looks: { Self → Lookup → Type 0 };

    // Whatever text comes behind is taken already.
    ghost Done: { Self → Type 0 };

    // Takes the text that a run stands for.
    fn reference(&mut self, run: &[u8])
        ensures { (v : List ℕ) × Self.Takes self.old v self.new × ((look : Lookup) → Looks self.old look → text_of (look (underscored run.now)) ≡ v) };

    // Is all text behind taken already? Then an expression is not read to its end.
    fn done(&self) -> bool
        ensures { result ≡ true → Done self.now };

    ghost kept: { (a b : Self) (v : List ℕ) (look : Lookup) → Self.Pieces.Takes a v b → Looks a look → Looks b look };

    ghost past: { (a b : Self) (v w : List ℕ) → Self.Pieces.Takes a v b → Done b → Self.Pieces.Takes a (v ++ w) b };
}

// Takes what a backslash and this byte stand for.
fn escape<P: Pieces>(to: &mut P, x: u8)
    ensures { P.Takes to.old (escape x) to.new }
{
    match x {
        b'n' => to.take(b"\n"),
        b't' => to.take(b"\t"),
        b'"' => to.take(b"\""),
        b'\\' => to.take(b"\\"),
        _ => {
            let both = [b'\\', x];
            to.take(&both);
        }
    }
}

// Reads a literal from behind its quote; where it ends. A stretch without quote and backslash is taken whole.
pub fn literal<P: Pieces>(text: &[u8], to: &mut P) -> usize
    ensures { Reads P.Takes (literal text.now) text.now to.old result to.new }
{
    let mut i: usize = 0;
    loop {
        let j = scan::span(text, i, scan::Set::NotQuoteNorBackslash);
        to.take(&text[i..j]);
        if text.len() <= j {
            return j;
        }
        if text[j] == b'"' {
            return j + 1;
        }
        if text.len() - j == 1 {
            to.take(b"\\");
            return j + 1;
        }
        escape(to, text[j + 1]);
        i = j + 2;
    }
}

// Where a text is read for its end alone.
#[derive(Clone, Copy)]
struct Nowhere;

impl Pieces for Nowhere {
    ghost Takes = { λ a v b. Unit {0} };

    fn take(&mut self, _piece: &[u8]) {}

    ghost none = { λ a. tt };

    ghost more = { λ a b c v w p q. tt };
}

impl Terms for Nowhere {
    ghost Looks = { λ a look. ⊥ };

    fn reference(&mut self, _run: &[u8]) {}

    ghost kept = { λ a b v look p q. q };

    ghost Done = { λ a. ⊥ };

    fn done(&self) -> bool {
        false
    }

    ghost past = { λ a b v w p d. tt };
}

// Where a literal ends, from behind its quote.
pub fn literal_end(text: &[u8]) -> usize
    ensures { Ends (literal text.now) text.now result }
{
    literal(text, &mut Nowhere)
}

// What a round of an expression begins with: a literal, from behind its quote; a reference's run; neither.
#[derive(Clone, Copy)]
pub enum RoundStart {
    Literal { from: usize },
    Reference { from: usize, to: usize },
    Nothing { at: usize },
}

// What a round of an expression begins with, behind line blanks.
pub fn round_start(text: &[u8]) -> RoundStart
    ensures { Begins text.now result }
{
    let i = scan::span(text, 0, scan::Set::LineBlank);
    if scan::at(text, i, b'"') {
        return RoundStart::Literal { from: i + 1 };
    }
    if scan::sees(text, i, scan::Set::UnderscoreOrLetter) {
        let to = scan::span(text, i, scan::Set::Run);
        return RoundStart::Reference { from: i, to };
    }
    RoundStart::Nothing { at: i }
}

// Reads a round of an expression up to its `+`: is there a term?
pub fn read_round<P: Terms>(text: &[u8], to: &mut P) -> Read<bool>
    ensures { ReadsRound P.Takes P.Looks text.now result to.old to.new }
{
    match round_start(text) {
        RoundStart::Literal { from } => Read {
            what: true,
            used: from + literal(&text[from..], to),
        },
        RoundStart::Reference { from, to: end } => {
            to.reference(&text[from..end]);
            Read {
                what: true,
                used: end,
            }
        }
        RoundStart::Nothing { at } => Read {
            what: false,
            used: at,
        },
    }
}

// Reads an expression; where it ends, if it was read to its end.
pub fn expression<P: Terms>(text: &[u8], to: &mut P) -> usize
    ensures { ReadsExpression P.Takes P.Looks P.Done text.now to.old result to.new }
{
    let mut i: usize = 0;
    loop {
        if to.done() {
            return i;
        }
        let r = read_round(&text[i..], to);
        i += r.used;
        if !r.what {
            return i;
        }
        i = scan::span(text, i, scan::Set::LineBlank);
        if !scan::at(text, i, b'+') {
            return i;
        }
        i += 1;
    }
}

// Where an expression ends.
pub fn expression_end(text: &[u8]) -> usize
    ensures { (look : Lookup) → Ends (expression look text.now) text.now result }
{
    expression(text, &mut Nowhere)
}
