// The entries of a bundle (document 01, section 1): a map byte, whose bits name the fields that follow; and an entry's path.
#![tactic(auto)]

ghost use Rattle.std.specs.Prelude.{◌≡◌, ◌≤◌, ◌<◌, length, ltb, not, ◌&&◌};
ghost use Rattle.rules.specs.Layout.{bit, field_if, byte, word16};
ghost use Rattle.rules.specs.Bytes.{holds};
ghost use Rattle.rules.specs.Bundle.{entry};
ghost use Rattle.scan.specs.Sets.{part, Within};
ghost use Rattle.paths.specs.Joined.{JoinsIn};
ghost use Rattle.bundle_entries.specs.Entries.{OptionalAt, NameAt, HeadAt, entry_fields};

use paths::{Path, Range};
use scan::Set;
use scan::fields::{long_field, short_field};

// The bits of a map byte.
const FOLDER: u32 = 0;

const NAME: u32 = 1;

const CONTENT: u32 = 2;

// Does a map byte name a field?
fn has(map: u8, field: u32) -> bool
    requires { field < 8 }
    ensures { result ≡ bit field map }
{
    map >> field & 1 == 1
}

// Does the map byte hold only bits of fields, and that of a file name?
fn allowed(map: u8) -> bool
    ensures { result ≡ (ltb map 8 && bit 1 map) }
{
    (map < 8) & has(map, NAME)
}

// An entry's folder; empty where the map names none.
fn folder(b: &[u8], at: usize, map: u8) -> Option<Range>
    ensures { OptionalAt b.now (field_if (bit 0 map) byte) at result }
{
    if !has(map, FOLDER) {
        return Some(Range { from: at, to: at });
    }
    short_field(b, at)
}

// Is the text free of `/`?
fn without_slash(text: &[u8]) -> bool
    ensures { result ≡ not (holds "/" text.now) }
{
    scan::all(text, Set::NotSlash)
}

// An entry's file name, which holds no `/`.
fn name(b: &[u8], at: usize) -> Option<Range>
    ensures { NameAt b.now at result }
{
    let name = short_field(b, at)?;
    if !without_slash(name.of(b)) {
        return None;
    }
    Some(name)
}

// An entry's content; empty where the map names none.
fn content(b: &[u8], at: usize, map: u8) -> Option<Range>
    ensures { OptionalAt b.now (field_if (bit 2 map) word16) at result }
{
    if !has(map, CONTENT) {
        return Some(Range { from: at, to: at });
    }
    long_field(b, at)
}

// An entry's places: its folder, its file name, its content. The next entry begins behind the content.
#[derive(Clone, Copy)]
pub struct Head {
    pub folder: Range,
    pub name: Range,
    pub content: Range,
}

// The fields behind the map byte.
fn fields(b: &[u8], at: usize, map: u8) -> Option<Head>
    ensures { HeadAt b.now (entry_fields (length b.now) map) at result }
{
    let folder = folder(b, at, map)?;
    let name = name(b, folder.to)?;
    let content = content(b, name.to, map)?;
    Some(Head {
        folder,
        name,
        content,
    })
}

// The entry at a place; none where the layout is broken.
pub fn entry_at(b: &[u8], at: usize) -> Option<Head>
    ensures { HeadAt b.now (entry (length b.now)) at result }
{
    if b.len() <= at {
        return None;
    }
    if !allowed(b[at]) {
        return None;
    }
    fields(b, at + 1, b[at])
}

// Makes a path that of an entry; none where that is longer than a path may be.
pub fn path_of(b: &[u8], h: Head, path: &mut Path) -> Option<()>
    requires { Within b.now h.folder × Within b.now h.name }
    ensures { JoinsIn (part b.now h.folder.from h.folder.to) (part b.now h.name.from h.name.to) path.new result }
{
    path.join(h.folder.of(b), h.name.of(b))
}
