// A text that is written piece by piece.
ghost use Rattle.strings.specs.Puts.{PutsOn, on-none, on-more};

use buffers::writer::Writer;
use refusal::Refusal;
use string_ends::Pieces;

// A writer, and what it has come to: once there is no room for a piece, nothing more is put.
#[derive(Drop)]
pub struct PieceWriter<'w, 'a> {
    pub to: &'w mut Writer<'a>,
    pub outcome: Result<(), Refusal>,
}

impl<'w, 'a> Pieces for PieceWriter<'w, 'a> {
    ghost Takes = { PutsOn };

    fn take(&mut self, piece: &[u8]) {
        if self.outcome.is_ok() {
            self.outcome = self.to.put(piece);
        }
    }

    ghost none = { λ a. on-none a };

    ghost more = { λ a b c v w p q. on-more p q };
}
