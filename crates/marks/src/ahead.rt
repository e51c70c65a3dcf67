// Searches in a text. What a search found is kept for the next one, so that marks whose quotes lie far behind them, or nowhere, are
// read in linear time.
ghost use Rattle.std.specs.Prelude.{◌≡◌, List, ℕ, ◌≤◌, length};
ghost use Rattle.scan.specs.Sets.{Spans, not_byte};
ghost use Rattle.marks.specs.Ahead.{Finds};

use std::marker::Model;

// The search of a text for a byte.
#[derive(Drop)]
pub struct Search<'a, const BYTE: u8> {
    text: &'a [u8],
    // From `from` to `to` the byte does not stand; at `to` it does, or the text ends. Nothing is known where `to` is before `from`.
    from: usize,
    to: usize,
}

impl<'a, const BYTE: u8> Model for Search<'a, BYTE> {
    ghost Value = { List ℕ };

    ghost view = { λ s. s.text.now };

    ghost invariant = { λ s. s.from ≤ s.to → Spans (not_byte BYTE) s.text.now s.from s.to };
}

impl<'a, const BYTE: u8> Search<'a, BYTE> {
    // Nothing is known.
    pub fn new(text: &'a [u8]) -> Search<'a, BYTE>
        ensures { result ≡ text.now }
    {
        Search {
            text,
            from: 1,
            to: 0,
        }
    }

    // The text that is searched.
    pub fn text(&self) -> &'a [u8]
        ensures { result.now ≡ self.now }
    {
        self.text
    }

    // The next place of the byte from a place on, or the end.
    pub fn next(&mut self, at: usize) -> usize
        requires { at ≤ length self.old }
        ensures finds { Spans (not_byte BYTE) self.old at result }
        ensures same { self.new ≡ self.old }
    {
        let known = (self.from <= at) & (at <= self.to);
        if known {
            return self.to;
        }
        self.to = scan::find(self.text, at, BYTE);
        self.from = at;
        self.to
    }
}

// What stands between two quotes, and the place behind them.
#[derive(Clone, Copy)]
pub struct Quoted<'a> {
    pub text: &'a [u8],
    pub next: usize,
}

// The searches of a text for two quotes.
#[derive(Drop)]
pub struct Quotes<'a> {
    first: Search<'a, b'"'>,
    second: Search<'a, b'"'>,
}

impl<'a> Model for Quotes<'a> {
    ghost Value = { List ℕ };

    ghost view = { λ q. q.first };

    ghost invariant = { λ q. q.second ≡ q.first };
}

impl<'a> Quotes<'a> {
    // Nothing is known.
    pub fn new(text: &'a [u8]) -> Quotes<'a>
        ensures { result ≡ text.now }
    {
        Quotes {
            first: Search::new(text),
            second: Search::new(text),
        }
    }

    // The next two quotes from a place on.
    pub fn next(&mut self, at: usize) -> Option<Quoted<'a>>
        requires { at ≤ length self.old }
        ensures finds { Finds self.old at result }
        ensures same { self.new ≡ self.old }
    {
        let text = self.first.text();
        let open = self.first.next(at);
        let from = scan::skip(text, open);
        let to = self.second.next(from);
        if to < text.len() {
            return Some(Quoted {
                text: &text[from..to],
                next: to + 1,
            });
        }
        None
    }
}
