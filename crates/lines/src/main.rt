// Replays fixed vectors: calls with the answers that they must have (crates/lines/README.md has their form, and says how they were
// made). It prints each case that differs, and how many there were.
#![tactic(auto)]

ghost use Rattle.std.specs.Prelude.{◌≤◌, length};

use cases::{Case, Cases, Fields, holds};
use std::io::Result;

// A buffer before a call: filled, so that a byte that the call leaves as it was is seen.
const FILLED: [u8; 4096] = [170; 4096];

// The answer that a text must have: a number, the buffer's length in 16 bits, the text.
#[derive(Clone, Copy)]
struct Answer<'a> {
    number: u8,
    room: usize,
    text: &'a [u8],
    ghost fits: { room ≤ 4096 },
}

impl<'a> Answer<'a> {
    // The answer of a field. None where it is cut short or asks for more room than there is.
    fn of(field: &'a [u8]) -> Option<Answer<'a>> {
        let [number, low, high, text @ ..] = field else {
            return None;
        };
        let room = usize::from(u16::from_le_bytes([*low, *high]));
        if room > 4096 {
            return None;
        }
        Some(Answer {
            number: *number,
            room,
            text,
        })
    }

    // Is a call's answer this one?
    fn is(&self, number: u8, len: usize, out: &[u8; 4096]) -> bool {
        number == self.number && len == self.text.len() && holds(&out[..self.room], self.text)
    }
}

// A yes or a no: one byte, 1 for yes.
fn flag(field: &[u8]) -> Option<bool> {
    match field {
        [byte] => Some(*byte == 1),
        _ => None,
    }
}

// The lookup call. The kind is one byte.
fn lookup_same(sheet: &[u8], path: &[u8], answer: &[u8], kind: &[u8]) -> Option<bool> {
    let answer = Answer::of(answer)?;
    let mut out = FILLED;
    let got = builder::resolve(sheet, path, &mut out[..answer.room]);
    Some(answer.is(got.number, got.len, &out) && kind == [got.kind].as_slice())
}

// The include call.
fn includes_same(bundle: &[u8], folder: &[u8], text: &[u8], answer: &[u8]) -> Option<bool> {
    let answer = Answer::of(answer)?;
    let mut out = FILLED;
    let got = builder::resolve_includes(bundle, folder, text, &mut out[..answer.room]);
    Some(answer.is(got.number, got.len, &out))
}

// The expansion call, with its number in both answers: of the text, and of the sheet left.
fn expansion_same(
    bundle: &[u8],
    text: &[u8],
    sheet: &[u8],
    written: &[u8],
    kept: &[u8],
) -> Option<bool> {
    let written = Answer::of(written)?;
    let kept = Answer::of(kept)?;
    let mut out = FILLED;
    let mut left = FILLED;
    let got = builder::preprocess_typst(
        bundle,
        text,
        sheet,
        &mut out[..written.room],
        &mut left[..kept.room],
    );
    Some(written.is(got.number, got.len, &out) && kept.is(got.number, got.sheet, &left))
}

// The definitions call, with its number in both answers: of the sheet, and of the work buffer, which is cleared.
fn definitions_same(bundle: &[u8], path: &[u8], sheet: &[u8], cleared: &[u8]) -> Option<bool> {
    let sheet = Answer::of(sheet)?;
    let cleared = Answer::of(cleared)?;
    let mut left = FILLED;
    let mut work = FILLED;
    let got = builder::parse_definitions(
        bundle,
        path,
        &mut left[..sheet.room],
        &mut work[..cleared.room],
    );
    Some(sheet.is(got.number, got.sheet, &left) && cleared.is(got.number, 0, &work))
}

// The pass, with its number in each answer: of the middle text, which is cleared, of the text, and of the sheet left.
fn pass_same(
    bundle: &[u8],
    folder: &[u8],
    text: &[u8],
    sheet: &[u8],
    cleared: &[u8],
    written: &[u8],
    kept: &[u8],
    closed: &[u8],
) -> Option<bool> {
    let cleared = Answer::of(cleared)?;
    let written = Answer::of(written)?;
    let kept = Answer::of(kept)?;
    let mut middle = FILLED;
    let mut out = FILLED;
    let mut left = FILLED;
    let got = builder::pass(
        bundle,
        folder,
        text,
        sheet,
        &mut middle[..cleared.room],
        &mut out[..written.room],
        &mut left[..kept.room],
    );
    Some(
        cleared.is(got.number, 0, &middle)
            && written.is(got.number, got.len, &out)
            && kept.is(got.number, got.sheet, &left)
            && flag(closed) == Some(got.closed),
    )
}

// The test load. The seed is four bytes, low byte first, and 0 where there are fewer; the list is a yes for the definition pieces.
fn load_same(seed: &[u8], list: &[u8], answer: &[u8]) -> Option<bool> {
    let answer = Answer::of(answer)?;
    let seed = seed
        .first_chunk()
        .map_or(0, |bytes| u32::from_le_bytes(*bytes));
    let mut out = FILLED;
    let got = builder::test_load(seed, flag(list) == Some(true), &mut out[..answer.room]);
    Some(answer.is(got.number, got.len, &out))
}

// Is the answer of a call the one given? The tag says which call. One that is not known differs, and what stands behind it is not read.
fn same(tag: u8, case: &mut Fields) -> bool
    ensures { length case.new.0.now ≤ length case.old.0.now }
{
    let same = match tag {
        0 => lookup_same(case.field(), case.field(), case.field(), case.field()),
        1 => includes_same(case.field(), case.field(), case.field(), case.field()),
        2 => expansion_same(
            case.field(),
            case.field(),
            case.field(),
            case.field(),
            case.field(),
        ),
        3 => definitions_same(case.field(), case.field(), case.field(), case.field()),
        4 => pass_same(
            case.field(),
            case.field(),
            case.field(),
            case.field(),
            case.field(),
            case.field(),
            case.field(),
            case.field(),
        ),
        5 => load_same(case.field(), case.field(), case.field()),
        _ => {
            *case = Fields(&[]);
            None
        }
    };
    same.unwrap_or(false)
}

// The cases of the vectors, each a tag and its fields.
#[derive(Clone, Copy)]
struct Vectors;

impl Case for Vectors {
    fn next_same(&self, fields: &mut Fields<'_>) -> Option<bool> {
        let (tag, rest) = fields.0.split_first()?;
        *fields = Fields(rest);
        Some(same(*tag, fields))
    }
}

fn main(rt: HostRuntime) -> Result<()> {
    let mut input = [0; 196608];
    let n = input::read_full(&mut rt.stdin(), &mut input)?;
    let mut out = rt.stdout();
    let tally = cases::replay(Cases::of(Vectors, &input[..n]), &mut out)?;
    cases::report(tally, &mut out)
}
