// Byte classes, stretches and marks (document 01, section 1). This is the only crate that looks at a byte's class.
#![tactic(auto)]

ghost use Rattle.std.specs.Prelude.{◌≡◌, ◌+◌, ◌≤◌, length, take, drop};
ghost use Rattle.rules.specs.Reader.{all, same};
ghost use Rattle.rules.specs.Bytes.{ascii, blank, letter, word};
ghost use Rattle.scan.specs.Sets.{member, part, byte_is, not_byte, Within, Spans, Sees, Starts, Skips};

pub mod fields;
mod read;
mod text;

pub use read::Read;
pub use text::Text;

// A part of a text, from a place up to another.
#[derive(Clone, Copy, Debug, PartialEq, Eq)]
pub struct Range {
    pub from: usize,
    pub to: usize,
}

impl Range {
    // This part of a text.
    pub fn of(self, text: &[u8]) -> &[u8]
        requires { Within text.now self }
        ensures { result.now ≡ part text.now self.from self.to }
    {
        &text[self.from..self.to]
    }
}

// The sets of bytes that are scanned for; `member` of specs/Sets says what each holds.
#[derive(Clone, Copy, Debug, PartialEq, Eq)]
pub enum Set {
    Blank,
    LineBlank,
    Letter,
    Word,
    Name,
    Run,
    CommaOrBlank,
    ColonOrBlank,
    EqualsOrLineBlank,
    EqualsOrBlank,
    UnderscoreOrLetter,
    Space,
    NotParen,
    NotQuoteNorBackslash,
    NotDot,
    NotSlash,
}

// The classes that sets are made of. Each set asks only for what it needs: this is done for every byte that is scanned.
#[tactic(auto, unfolding(crate::specs::Sets::classes))]
fn blank(x: u8) -> bool
    ensures { result ≡ blank x }
{
    ((9 <= x) & (x <= 13)) | (x == 32)
}

#[tactic(auto, unfolding(crate::specs::Sets::classes))]
fn letter(x: u8) -> bool
    ensures { result ≡ letter x }
{
    ((65 <= x) & (x <= 90)) | ((97 <= x) & (x <= 122))
}

#[tactic(auto, unfolding(crate::specs::Sets::classes))]
fn word(x: u8) -> bool
    ensures { result ≡ word x }
{
    letter(x) | ((48 <= x) & (x <= 57)) | (x == 95)
}

// Is the byte in the set?
#[tactic(auto, unfolding(crate::specs::Sets::classes))]
pub fn member(set: Set, x: u8) -> bool
    ensures { result ≡ member set x }
{
    match set {
        Set::Blank => blank(x),
        Set::LineBlank => blank(x) & (x != 10),
        Set::Letter => letter(x),
        Set::Word => word(x),
        Set::Name => word(x) | (x == 45),
        Set::Run => word(x) | (x == 45) | (x == 46),
        Set::CommaOrBlank => (x == 44) | blank(x),
        Set::ColonOrBlank => (x == 58) | blank(x),
        Set::EqualsOrLineBlank => (x == 61) | (blank(x) & (x != 10)),
        Set::EqualsOrBlank => (x == 61) | blank(x),
        Set::UnderscoreOrLetter => (x == 95) | letter(x),
        Set::Space => x == 32,
        Set::NotParen => x != 41,
        Set::NotQuoteNorBackslash => (x != 34) & (x != 92),
        Set::NotDot => x != 46,
        Set::NotSlash => x != 47,
    }
}

// The end of the longest stretch of bytes of the set from a place on.
pub fn span(text: &[u8], at: usize, set: Set) -> usize
    requires { at ≤ length text.now }
    ensures { Spans (member set) text.now at result }
{
    at + text[at..].iter().take_while(|x| member(set, **x)).count()
}

// Are all bytes of the set?
pub fn all(text: &[u8], set: Set) -> bool
    ensures { result ≡ all (member set) text.now }
{
    text.iter().all(|x| member(set, *x))
}

// The next place of the byte c from a place on, or the end: block by block, then byte by byte. The kit's `memchr` takes twice as
// long where the byte stands close by.
pub fn find(text: &[u8], at: usize, c: u8) -> usize
    requires { at ≤ length text.now }
    ensures { Spans (not_byte c) text.now at result }
{
    let mut i = at;
    while 32 <= text.len() - i && !text[i..i + 32].contains(&c) {
        i += 32;
    }
    match text[i..].iter().position(|x| *x == c) {
        Some(n) => i + n,
        None => text.len(),
    }
}

// Are all bytes below 128? Every byte is looked at, so that the compiler takes many at once.
pub fn is_ascii(text: &[u8]) -> bool
    ensures { result ≡ all ascii text.now }
{
    text.iter().fold(true, |good, x| good & (*x < 128))
}

// Is there a byte of the set at a place?
pub fn sees(text: &[u8], at: usize, set: Set) -> bool
    ensures { Sees (member set) text.now at result }
{
    text.get(at).is_some_and(|x| member(set, *x))
}

// Does this byte stand at a place?
pub fn at(text: &[u8], i: usize, c: u8) -> bool
    ensures { Sees (byte_is c) text.now i result }
{
    text.get(i) == Some(&c)
}

// Does the mark stand at a place? A loop, since calls with a mark of the text are unrolled: the slice's own `starts_with`, and `zip`
// with `all`, take three times as many steps there.
pub fn starts_with(text: &[u8], at: usize, mark: &[u8]) -> bool
    requires { at ≤ length text.now }
    ensures { Starts mark.now text.now at result }
{
    if text.len() - at < mark.len() {
        return false;
    }
    let mut i: usize = 0;
    while i < mark.len() {
        if mark[i] != text[at + i] {
            return false;
        }
        i += 1;
    }
    true
}

// Are two texts the same?
pub fn same(p: &[u8], q: &[u8]) -> bool
    ensures { result ≡ same p.now q.now }
{
    p == q
}

// One byte on, or none at the end.
pub fn skip(text: &[u8], at: usize) -> usize
    requires { at ≤ length text.now }
    ensures { Skips text.now at result }
{
    text.len().min(at + 1)
}
