// A writer: texts are put one behind the other into a lent buffer, as long as there is room.
ghost use Rattle.std.specs.Prelude.{◌≡◌, [], ◌∷◌, ◌≤◌, length, take};

use crate::store;
use refusal::Refusal;

// The buffer, the room, the place behind what has been put, and what is told where there is no room. A buffer that is shorter than the room takes as
// much as it has bytes for: an empty one takes nothing, and what is put is only measured.
#[derive(Drop)]
pub struct Writer<'a> {
    pub out: &'a mut [u8],
    pub room: usize,
    pub at: usize,
    pub full: Refusal,
    ghost within: { at ≤ room },
    ghost enough: { length out.now ≤ room },
}

impl<'a> Writer<'a> {
    ghost use Rattle.buffers.specs.Wrote.{Puts, Begins};

    // A writer at the start of a buffer, with room for as much as the buffer has bytes.
    pub fn new(out: &'a mut [u8], full: Refusal) -> Writer<'a>
        ensures { Begins out.entry full result }
    {
        let room = out.len();
        Writer {
            out,
            room,
            at: 0,
            full,
        }
    }

    // Puts a text. Where there is no room for all of it that is told, and there is none for what comes behind.
    pub fn put(&mut self, text: &[u8]) -> Result<(), Refusal>
        ensures { Puts text.now self.old self.new result }
    {
        store(self.out, self.at, text);
        if self.room - self.at < text.len() {
            self.at = self.room;
            return Err(self.full);
        }
        self.at += text.len();
        Ok(())
    }

    // Puts one byte. As a text of one byte it would be copied by a loop.
    pub fn put_byte(&mut self, x: u8) -> Result<(), Refusal>
        ensures { Puts (x ∷ []) self.old self.new result }
    {
        // The place is read once: behind the store the compiler would read it again.
        let at = self.at;
        if at < self.out.len() {
            self.out[at] = x;
        } else if self.room <= at {
            return Err(self.full);
        }
        self.at = at + 1;
        Ok(())
    }

    // What stands in the buffer up to the writer's place.
    pub fn text(self) -> &'a [u8]
        ensures { result.now ≡ take self.entry.at self.entry.out.now }
    {
        let n = self.at.min(self.out.len());
        let out = self.out;
        &out[..n]
    }
}
