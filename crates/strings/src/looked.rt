// References that are looked up in a sheet.
ghost use Rattle.std.specs.Prelude.{◌≡◌, refl};
ghost use Rattle.std.proofs.Common.{◌∙◌};
ghost use Rattle.strings.specs.Looked.{TakesLooked, LooksIn, looks-kept};

use crate::find_text;
use sheet::Sheet;
use string_ends::{Pieces, Terms};

// Takes the texts that references stand for in a sheet as it takes any piece.
#[derive(Drop)]
pub struct Looked<'a, 's, P: Pieces> {
    pub sheet: &'a Sheet<'s>,
    pub to: &'a mut P,
}

impl<'a, 's, P: Pieces> Pieces for Looked<'a, 's, P> {
    ghost Takes = { TakesLooked P.Takes };

    fn take(&mut self, piece: &[u8]) {
        self.to.take(piece);
    }

    ghost none = { λ a. (refl, refl, P.none a.to.now) };

    ghost more = { λ a b c v w p q. (q.0 ∙ p.0, q.1 ∙ p.1, P.more a.to.now b.to.now c.to.now v w p.2 q.2) };
}

impl<'a, 's, P: Pieces> Terms for Looked<'a, 's, P> {
    ghost Looks = { LooksIn };

    fn reference(&mut self, run: &[u8]) {
        self.to.take(find_text(self.sheet, run));
    }

    ghost kept = { λ a b v look p l. looks-kept p.0 l };

    ghost Done = { λ l. ⊥ };

    fn done(&self) -> bool {
        false
    }

    ghost past = { λ a b v w p d. absurd d };
}
