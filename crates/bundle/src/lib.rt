// The bundle (document 01, section 1): its files and folders. This is the only crate that asks a bundle for a path.
#![tactic(auto)]

ghost use Rattle.std.specs.Prelude.{◌≡◌, true, List, ℕ};
ghost use Rattle.rules.specs.Bytes.{parent};
ghost use Rattle.rules.specs.Bundle.{above, bundle_of};
ghost use Rattle.rules.specs.Answer.{is_some};
ghost use Rattle.rules.specs.Files.{view, fetch, opened, has_citation, project_root};
ghost use Rattle.paths.specs.Joined.{text};
ghost use Rattle.bundle.specs.Find.{Finds, entries_of};
ghost use Rattle.refusal.specs.Numbers.{Listed};
ghost use Rattle.bundle.specs.Open.{Answers, JoinsWithin, OpensWithin, there};

use bundle_entries::{entry_at, path_of};
use paths::{Path, Range, is_path, join, parent};
use refusal::Refusal;
use scan::fields::word;
use std::marker::Model;

// What a path is in a bundle; a file's content is a part of the bundle.
#[derive(Clone, Copy)]
pub enum Found {
    Absent,
    Folder,
    File(Range),
}

// A file that a text names: its path, which the caller that has it opened owns, and its text.
#[derive(Clone, Copy)]
pub struct File<'p, 'a> {
    pub path: &'p Path,
    pub text: &'a [u8],
}

impl File<'_, '_> {
    // The folder of its path.
    pub fn folder(&self) -> &[u8]
        ensures { result.now ≡ parent (text self.now.path.now) }
    {
        parent(self.path.as_bytes())
    }
}

// A file's text, opened with so many levels left: 7 where none is left, then 6 where the text holds a byte from 128.
pub fn open_within(text: &[u8], levels: usize) -> Result<&[u8], Refusal>
    ensures { OpensWithin text.now levels result }
{
    if levels == 0 {
        return Err(Refusal::Level);
    }
    if !scan::is_ascii(text) {
        return Err(Refusal::Byte);
    }
    Ok(text)
}

// Makes `joined` a path that is joined to a folder: 4 where that is longer than a path may be.
pub fn join_within(folder: &[u8], path: &[u8], joined: &mut Path) -> Result<(), Refusal>
    ensures joins { JoinsWithin folder.now path.now joined.new result }
    ensures listed { Listed result }
{
    joined.join(folder, path).ok_or(Refusal::Path)
}

// Does p, followed by `/`, begin q?
fn above(p: &[u8], q: &[u8]) -> bool
    ensures { result ≡ above p.now q.now }
{
    if !scan::starts_with(q, 0, p) {
        return false;
    }
    scan::at(q, p.len(), b'/')
}

// Is there a file or a folder?
fn exists(found: Found) -> bool
    ensures { result ≡ there found }
{
    !matches!(found, Found::Absent)
}

// A bundle that keeps its layout. A contract sees its bytes.
#[derive(Drop)]
pub struct Bundle<'a> {
    bytes: &'a [u8],
}

impl<'a> Model for Bundle<'a> {
    ghost Value = { List ℕ };

    ghost view = { λ b. b.bytes.now };

    ghost invariant = { λ b. is_some (bundle_of b.bytes.now) ≡ true };
}

impl<'a> Bundle<'a> {
    // The bundle of bytes that keep the layout.
    pub fn new(bytes: &'a [u8]) -> Bundle<'a>
        requires { is_some (bundle_of bytes.now) ≡ true }
        ensures { result ≡ bytes.now }
    {
        Bundle { bytes }
    }

    // Its bytes.
    pub fn bytes(&self) -> &'a [u8]
        ensures { result.now ≡ self.now }
    {
        self.bytes
    }

    // Looks a path up.
    pub fn find(&self, path: &[u8]) -> Found
        ensures { Finds self.now (entries_of self.now) path.now result }
    {
        let b = self.bytes;
        let mut at: usize = 2;
        let mut folder = false;
        let mut own = Path::empty();
        for done in 0..word(b, 0) {
            let entry = entry_at(b, at).unwrap();
            path_of(b, entry, &mut own).unwrap();
            let here = own.as_bytes();
            if scan::same(here, path) {
                return Found::File(entry.content);
            }
            folder |= above(path, here);
            at = entry.content.to;
        }
        if folder {
            return Found::Folder;
        }
        Found::Absent
    }

    // A file's bytes: 4 where the path rule is broken, 5 where it is absent or a folder.
    pub fn fetch(&self, path: &[u8]) -> Result<&'a [u8], Refusal>
        ensures answers { Answers (fetch (view (entries_of self.now)) path.now) result }
        ensures listed { Listed result }
    {
        if !is_path(path) {
            return Err(Refusal::Path);
        }
        match self.find(path) {
            Found::Absent => Err(Refusal::File),
            Found::Folder => Err(Refusal::File),
            Found::File(content) => Ok(content.of(self.bytes)),
        }
    }

    // A file's text: 4, 5, then 6 where it holds a byte from 128.
    pub fn open_text(&self, path: &[u8]) -> Result<&'a [u8], Refusal>
        ensures { Answers (opened (view (entries_of self.now)) path.now) result }
    {
        let text = self.fetch(path)?;
        if !scan::is_ascii(text) {
            return Err(Refusal::Byte);
        }
        Ok(text)
    }

    // Has a folder `CITATION.cff`? Where that path would pass 255 bytes it is absent without asking.
    fn has_citation(&self, folder: &[u8]) -> bool
        ensures { result ≡ has_citation (view (entries_of self.now)) folder.now }
    {
        match join(folder, b"CITATION.cff") {
            None => false,
            Some(path) => exists(self.find(path.as_bytes())),
        }
    }

    // The nearest folder upward that has `CITATION.cff`; else `folder` itself.
    pub fn project_root<'b>(&self, folder: &'b [u8]) -> &'b [u8]
        ensures { result.now ≡ project_root (view (entries_of self.now)) folder.now }
    {
        let mut upward = folder;
        loop {
            if self.has_citation(upward) {
                return upward;
            }
            if upward.is_empty() {
                return folder;
            }
            upward = parent(upward);
        }
    }
}
