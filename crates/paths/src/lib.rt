// Paths and trimming (document 01, section 1): the path rule, joining, a path's folder.
#![tactic(auto)]

ghost use Rattle.std.specs.Prelude.{◌≡◌, ◌≤◌, ◌<◌, length, get_or};
ghost use Rattle.rules.specs.Bytes.{is_path, is_folder, parent, trim, trim_end};
ghost use Rattle.paths.specs.Joined.{Joins};
ghost use Rattle.paths.specs.Paths.{dotted, named, ended, step, whole};

mod path;

use memchr::memrchr;
pub use path::Path;
pub use scan::Range;
use scan::{Set, member, span};

// What has been read of a path's segment: nothing, `.`, `..`, a segment that may end here, or one that breaks the rule.
#[derive(Clone, Copy, Debug, PartialEq, Eq)]
pub enum Segment {
    Empty,
    Dot,
    Dots,
    Good,
    Bad,
}

impl Segment {
    // Behind one more `.`.
    fn dotted(self) -> Segment
        ensures { result ≡ dotted self }
    {
        match self {
            Segment::Empty => Segment::Dot,
            Segment::Dot => Segment::Dots,
            Segment::Dots | Segment::Good => Segment::Good,
            Segment::Bad => Segment::Bad,
        }
    }

    // Behind one more letter, digit, `-` or `_`.
    fn named(self) -> Segment
        ensures { result ≡ named self }
    {
        match self {
            Segment::Bad => Segment::Bad,
            _ => Segment::Good,
        }
    }

    // Behind `/`, where the next segment begins.
    fn ended(self) -> Segment
        ensures { result ≡ ended self }
    {
        match self {
            Segment::Good => Segment::Empty,
            _ => Segment::Bad,
        }
    }

    // Behind one more byte.
    fn step(self, x: u8) -> Segment
        ensures { result ≡ step self x }
    {
        if x == b'/' {
            return self.ended();
        }
        if !member(Set::Run, x) {
            return Segment::Bad;
        }
        let dot = x == b'.';
        if dot { self.dotted() } else { self.named() }
    }

    // May a path end here?
    fn whole(self) -> bool
        ensures { result ≡ whole self }
    {
        self == Segment::Good
    }
}

// Does the path rule hold?
pub fn is_path(p: &[u8]) -> bool
    ensures { result ≡ is_path p.now }
{
    p.len() <= 255 && p.iter().fold(Segment::Empty, |s, x| s.step(*x)).whole()
}

// Does the folder rule hold: a path, or empty?
pub fn is_folder(g: &[u8]) -> bool
    ensures { result ≡ is_folder g.now }
{
    g.is_empty() || is_path(g)
}

// A path's folder: what stands before its last `/`.
pub fn parent(p: &[u8]) -> &[u8]
    ensures { result.now ≡ parent p.now }
{
    &p[..memrchr(b'/', p).unwrap_or(0)]
}

// Joins a path to a folder; none where that is longer than a path may be.
pub fn join(folder: &[u8], path: &[u8]) -> Option<Path>
    ensures { Joins folder.now path.now result }
{
    let mut joined = Path::empty();
    joined.join(folder, path)?;
    Some(joined)
}

// A text without its trailing blanks.
pub fn trim_end(text: &[u8]) -> &[u8]
    ensures { result.now ≡ trim_end text.now }
{
    let blanks = text
        .iter()
        .rev()
        .take_while(|x| member(Set::Blank, **x))
        .count();
    &text[..text.len() - blanks]
}

// A text without the blanks at both ends.
pub fn trim(text: &[u8]) -> &[u8]
    ensures { result.now ≡ trim text.now }
{
    let start = span(text, 0, Set::Blank);
    trim_end(&text[start..])
}
