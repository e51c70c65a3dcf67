// What a text begins with.
ghost use Rattle.std.specs.Prelude.{◌≡◌, ◌+◌, ◌^◌, ◌<◌};

// What was read of a text from its start on, and how many bytes of the text that took.
#[derive(Clone, Copy, Debug, PartialEq, Eq)]
pub struct Read<T> {
    pub what: T,
    pub used: usize,
}

impl<T> Read<T> {
    // The same, read from behind so many bytes.
    pub fn behind(self, n: usize) -> Read<T>
        requires { n + self.used < 2 ^ 64 }
        ensures { result ≡ record { what = self.what; used = n + self.used } }
    {
        Read {
            what: self.what,
            used: n + self.used,
        }
    }
}
