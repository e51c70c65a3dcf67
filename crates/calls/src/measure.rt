// The texts that a call takes, measured.
ghost use Rattle.std.specs.Prelude.{◌≡◌, ◌≤◌};
ghost use Rattle.std.specs.Option.{ForSome};
ghost use Rattle.rules.specs.Strings.{literal, expression};
ghost use Rattle.rules.specs.Sheet.{resolve};
ghost use Rattle.sheet.specs.Records.{records_of};
ghost use Rattle.calls.specs.Measure.{behind, kept_behind, Measures, MeasuresRead};

use buffers::within;
use paths::trim_end;
use scan::Read;
use sheet::Sheet;
use string_ends::Pieces;

// A text's length, and its length without trailing blanks; none where that is more than the room.
#[derive(Clone, Copy)]
pub struct Measure {
    pub len: Option<usize>,
    pub kept: Option<usize>,
}

// Measures a text piece by piece.
#[derive(Clone, Copy)]
struct Meter {
    room: usize,
    size: Measure,
    ghost inside: { ForSome size.len (λ n. n ≤ room) },
}

impl Meter {
    ghost use Rattle.calls.specs.Meter.{meter_start};

    fn start(room: usize) -> Meter
        ensures { meter_start room result }
    {
        Meter {
            room,
            size: Measure {
                len: Some(0),
                kept: Some(0),
            },
        }
    }
}

impl Pieces for Meter {
    ghost use Rattle.calls.specs.Meter.{Meters, meters-none, meters-more};

    ghost Takes = { Meters };

    fn take(&mut self, piece: &[u8]) {
        self.size = Measure {
            len: behind(self.room, self.size.len, piece.len()),
            kept: keep(self.room, self.size.len, self.size.kept, piece),
        };
    }

    ghost none = { λ a. meters-none a };

    ghost more = { λ a b c v w p q. meters-more p q };
}

// Where a writer goes on behind n bytes; none where there is no room for them, or was none before.
// Not by `within`, which also asks whether there was room before: that is known here, and this is done for every piece.
fn behind(room: usize, p: Option<usize>, n: usize) -> Option<usize>
    requires { ForSome p (λ p. p ≤ room) }
    ensures { result ≡ behind room p n }
{
    let p = p?;
    if room - p < n {
        return None;
    }
    Some(p + n)
}

// Where a writer at p goes on behind a piece without its trailing blanks; at `kept` where the piece is nothing but blanks.
#[tactic(auto, unfolding(crate::specs::Measure::kept_behind))]
fn keep(room: usize, p: Option<usize>, kept: Option<usize>, piece: &[u8]) -> Option<usize>
    requires { ForSome p (λ p. p ≤ room) }
    ensures { result ≡ kept_behind room p kept piece.now }
{
    let n = trim_end(piece).len();
    if n == 0 {
        return kept;
    }
    behind(room, p, n)
}

// A text that stands somewhere as it is.
pub fn part(text: &[u8], room: usize) -> Measure
    ensures { Measures room text.now result }
{
    let n = trim_end(text).len();
    Measure {
        len: within(room, 0, text.len()),
        kept: within(room, 0, n),
    }
}

// A literal, from behind its quote.
pub fn literal(text: &[u8], room: usize) -> Read<Measure>
    ensures { MeasuresRead room (literal text.now) text.now result }
{
    let mut to = Meter::start(room);
    let used = string_ends::literal(text, &mut to);
    Read {
        what: to.size,
        used,
    }
}

// An expression.
pub fn expression(text: &[u8], sheet: &Sheet<'_>, room: usize) -> Read<Measure>
    ensures { MeasuresRead room (expression (resolve (records_of sheet.now)) text.now) text.now result }
{
    let mut to = Meter::start(room);
    let used = strings::read_expression(text, sheet, &mut to);
    Read {
        what: to.size,
        used,
    }
}
