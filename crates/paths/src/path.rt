// A path that is put together: the bytes of a folder, `/` and a name, as far as a path may be long.
ghost use Rattle.std.specs.Prelude.{◌≡◌, ◌≤◌, [], length};

// A text of at most 255 bytes.
#[derive(Clone, Copy)]
pub struct Path {
    bytes: [u8; 255],
    len: usize,
    ghost fits: { len ≤ 255 },
    ghost size: { length bytes ≡ 255 },
}

impl Path {
    ghost use Rattle.paths.specs.Joined.{text, Pushed, JoinsIn};

    // The empty text.
    pub fn empty() -> Path
        ensures { text result ≡ [] }
    {
        Path {
            bytes: [0; 255],
            len: 0,
        }
    }

    pub fn as_bytes(&self) -> &[u8]
        ensures { result.now ≡ text self.now }
    {
        &self.bytes[..self.len]
    }

    // Puts more behind the text; none where that makes it longer than a path may be.
    pub fn push(&mut self, more: &[u8]) -> Option<()>
        ensures { Pushed self.old more.now self.new result }
    {
        let over = 255 - self.len < more.len();
        if over {
            return None;
        }
        let end = self.len;
        for (i, x) in more.iter().enumerate() {
            self.bytes[end + i] = *x;
        }
        self.len = end + more.len();
        Some(())
    }

    // Makes the text a path that is joined to a folder; none where that is longer than a path may be.
    pub fn join(&mut self, folder: &[u8], path: &[u8]) -> Option<()>
        ensures { JoinsIn folder.now path.now self.new result }
    {
        self.len = 0;
        if folder.len() != 0 {
            self.push(folder)?;
            self.push(b"/")?;
        }
        self.push(path)
    }
}
