// A walk over a bundle's entries that checks their paths.
ghost use Rattle.std.specs.Prelude.{◌≡◌, ◌≤◌, length};

use crate::order::{agree, keeps, mark};
use bundle_entries::{entry_at, path_of};
use paths::Path;

// Where the next entry begins, the last path, and which of its starts are paths themselves.
#[derive(Clone, Copy)]
pub struct Walk {
    pub at: usize,
    last: Path,
    files: [bool; 256],
    ghost size: { length files ≡ 256 },
}

impl Walk {
    ghost use Rattle.bundle_layout.specs.Check.{Starts, Follows, Next};

    // A walk that begins behind the entry count.
    pub fn start() -> Walk
        ensures { Starts result }
    {
        Walk {
            at: 2,
            last: Path::empty(),
            files: [false; 256],
        }
    }

    // One path more; none where it breaks a rule.
    fn follow(&mut self, path: &Path) -> Option<()>
        ensures { Follows self.old path.now self.new result }
    {
        let last = self.last.as_bytes();
        let next = path.as_bytes();
        let k = agree(last, next);
        let n = next.len();
        if !keeps(last, next, k, &self.files) {
            return None;
        }
        mark(&mut self.files, k, n);
        self.last = *path;
        Some(())
    }

    // One entry more; none where the bundle breaks its layout.
    pub fn next(&mut self, b: &[u8]) -> Option<()>
        ensures { Next b.now self.old self.new result }
    {
        let entry = entry_at(b, self.at)?;
        let mut path = Path::empty();
        path_of(b, entry, &mut path)?;
        self.follow(&path)?;
        self.at = entry.content.to;
        Some(())
    }
}
