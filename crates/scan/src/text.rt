// A text (document 01, section 1).
ghost use Rattle.std.specs.Prelude.{◌≡◌, List, ℕ, true, ◌≤◌, length, drop};
ghost use Rattle.rules.specs.Reader.{all};
ghost use Rattle.rules.specs.Bytes.{ascii};

use std::marker::Model;

// A text: its bytes are below 128. A contract sees the bytes.
#[derive(Drop)]
pub struct Text<'a> {
    bytes: &'a [u8],
}

impl<'a> Model for Text<'a> {
    ghost Value = { List ℕ };

    ghost view = { λ t. t.bytes.now };

    ghost invariant = { λ t. all ascii t.bytes.now ≡ true };
}

impl<'a> Text<'a> {
    // The text of bytes below 128.
    pub fn new(bytes: &'a [u8]) -> Text<'a>
        requires { all ascii bytes.now ≡ true }
        ensures { result ≡ bytes.now }
    {
        Text { bytes }
    }

    // Its bytes.
    pub fn bytes(&self) -> &'a [u8]
        ensures same { result.now ≡ self.now }
        ensures ascii { all ascii self.now ≡ true }
    {
        self.bytes
    }

    // The text from a place on.
    pub fn behind(&self, n: usize) -> Text<'a>
        requires { n ≤ length self.now }
        ensures { result ≡ drop n self.now }
    {
        Text {
            bytes: &self.bytes[n..],
        }
    }
}
