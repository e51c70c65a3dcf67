// Values of definitions (document 01, section 7): a text, none, or a dictionary, which holds values.
#![tactic(auto)]

ghost use Rattle.std.specs.Prelude.{◌≡◌, ◌+◌, ◌-◌, ◌<◌, ◌^◌, false};
ghost use Rattle.rules.specs.Reader.{Reader, bytes};
ghost use Rattle.rules.specs.Answer.{Answer};
ghost use Rattle.rules.specs.Bytes.{line_blank};
ghost use Rattle.rules.specs.Sheet.{Value, resolve};
ghost use Rattle.rules.specs.Definitions.{text_value, value, dictionary_value};
ghost use Rattle.scan.specs.Sets.{Spans, Starts};
ghost use Rattle.sheet.specs.Find.{HasRecords};
ghost use Rattle.sheet.specs.Records.{records_of};
ghost use Rattle.values.specs.Values.{ReadsValue, IsNone, IsDictionary};
ghost use Rattle.values.specs.Dictionary.{NextEntry};

pub mod work;

use crate::work::Work;
use binding::buffer::RecordBuffer;
use binding::text_lead;
use buffers::writer::Writer;
use record_bytes::Lead;
use refusal::Refusal;
use scan::{Read, Set};
use sheet::{Name, Sheet};

// A value that was read: what stands before its own bytes, and these, which are a part of the work buffer.
#[derive(Clone, Copy)]
pub struct ValueBytes<'a> {
    pub lead: Lead,
    pub own: &'a [u8],
}

// How many bytes of its own a text or a dictionary may have.
fn own_room(limit: usize) -> usize
    ensures { result ≡ limit - 3 }
{
    limit.saturating_sub(3)
}

// A text.
fn text_value<'a>(
    text: &[u8],
    sheet: &Sheet<'_>,
    work: Work<'a>,
) -> Result<Read<ValueBytes<'a>>, Refusal>
    ensures { ReadsValue work.entry.limit (text_value work.entry.limit (resolve (records_of sheet.now)) text.now) text.now result }
{
    let limit = work.limit;
    let room = own_room(limit);
    let mut w = Writer::new(&mut work.bytes[..room], Refusal::Limit);
    let read = strings::expression(text, sheet, &mut w);
    read.what?;
    if limit == 0 {
        return Err(Refusal::Limit);
    }
    let own = w.text();
    let lead = text_lead(own.len());
    Ok(Read {
        what: ValueBytes { lead, own },
        used: read.used,
    })
}

// None: it has no bytes of its own.
fn none_value<'a>(used: usize) -> Read<ValueBytes<'a>>
    ensures { IsNone used result }
{
    let what = ValueBytes {
        lead: Lead::Nothing,
        own: b"",
    };
    Read { what, used }
}

// The dictionary of these records.
fn whole_dictionary<'a>(records: &'a [u8], used: usize) -> Read<ValueBytes<'a>>
    requires { HasRecords records.now }
    ensures { IsDictionary records.now used result }
{
    let what = ValueBytes {
        lead: Lead::Dictionary(sheet::lookup::count(records)),
        own: records,
    };
    Read { what, used }
}

// A value that is no dictionary, where line blanks end: a text, or none.
fn simple_value<'a>(
    text: &[u8],
    sheet: &Sheet<'_>,
    work: Work<'a>,
) -> Result<Read<ValueBytes<'a>>, Refusal>
    requires { Spans line_blank text.now 0 0 × Starts (bytes "(") text.now 0 false }
    ensures { (inner : Reader (Answer Value)) → ReadsValue work.entry.limit (value work.entry.limit (resolve (records_of sheet.now)) inner text.now) text.now result }
{
    if scan::at(text, 0, b'"') {
        return text_value(text, sheet, work);
    }
    if scan::starts_with(text, 0, b"none") {
        return Ok(none_value(4));
    }
    if scan::sees(text, 0, Set::UnderscoreOrLetter) {
        return text_value(text, sheet, work);
    }
    Ok(none_value(scan::find(text, 0, b'\n')))
}

// A value.
#[cycle(dictionary_value)]
pub fn value<'a>(
    text: &[u8],
    sheet: &Sheet<'_>,
    work: Work<'a>,
) -> Result<Read<ValueBytes<'a>>, Refusal>
    ensures { ReadsValue work.entry.limit (value work.entry.limit (resolve (records_of sheet.now)) (dictionary_value work.entry.limit (resolve (records_of sheet.now)) work.entry.levels) text.now) text.now result }
{
    let i = scan::span(text, 0, Set::LineBlank);
    if scan::starts_with(text, i, b"(") {
        let v = dictionary(&text[i + 1..], sheet, work)?;
        return Ok(v.behind(i + 1));
    }
    let v = simple_value(&text[i..], sheet, work)?;
    Ok(v.behind(i))
}

// The entry that a text begins with: its name, and where its value begins; none where the dictionary ends.
fn next_entry(text: &[u8]) -> Read<Option<&[u8]>>
    ensures { NextEntry text.now result }
{
    let from = scan::span(text, 0, Set::CommaOrBlank);
    if !scan::sees(text, from, Set::NotParen) {
        return Read {
            what: None,
            used: scan::skip(text, from),
        };
    }
    let to = scan::span(text, from, Set::Name);
    let used = scan::span(text, to, Set::ColonOrBlank);
    let what = Some(&text[from..to]);
    Read { what, used }
}

// A dictionary behind its `(`: it grows in the first slot, and its values are read behind that.
#[cycle(dictionary_value)]
fn dictionary<'a>(
    text: &[u8],
    sheet: &Sheet<'_>,
    work: Work<'a>,
) -> Result<Read<ValueBytes<'a>>, Refusal>
    ensures { ReadsValue work.entry.limit (dictionary_value work.entry.limit (resolve (records_of sheet.now)) work.entry.levels text.now) text.now result }
{
    let Work {
        bytes,
        limit,
        levels,
    } = work;
    if levels == 0 {
        return Err(Refusal::Level);
    }
    let (slot, behind) = bytes.split_at_mut(limit);
    let mut records = RecordBuffer {
        bytes: slot,
        len: 0,
        limit: own_room(limit),
        last: 0,
    };
    let mut i: usize = 0;
    'entries: loop {
        let entry = next_entry(&text[i..]).behind(i);
        let Some(name) = entry.what else {
            let RecordBuffer { bytes, len, .. } = records;
            return Ok(whole_dictionary(&bytes[..len], entry.used));
        };
        let inner = Work {
            bytes: behind,
            limit,
            levels: levels - 1,
        };
        let v = value(&text[entry.used..], sheet, inner)?;
        records.bind_value(Name::Plain(name), v.what.lead, v.what.own)?;
        i = entry.used + v.used;
    }
}
