// An expression compared with another text.
ghost use Rattle.std.specs.Prelude.{◌≡◌, refl, true, None};
ghost use Rattle.std.proofs.Common.{◌∙◌};
ghost use Rattle.rules.specs.Reader.{same};
ghost use Rattle.rules.specs.Strings.{expression};
ghost use Rattle.rules.specs.Sheet.{resolve};
ghost use Rattle.sheet.specs.Records.{records_of};
ghost use Rattle.strings.specs.Looked.{looks-kept};
ghost use Rattle.calls.specs.Compare.{Differs};
ghost use Rattle.calls.specs.Met.{Meets, all_met, leaves-all, leaves-more, leaves-past};

use scan::Set;
use sheet::Sheet;
use string_ends::{Pieces, Terms};
use strings::find_text;

// What is left of another text behind a text that comes piece by piece, its references looked up in a sheet; none where it does not begin with that.
#[derive(Clone, Copy)]
struct Met<'a, 's, 'b> {
    sheet: &'a Sheet<'s>,
    left: Option<&'b [u8]>,
}

impl<'a, 's, 'b> Met<'a, 's, 'b> {
    // Is all of it met?
    #[tactic(auto, unfolding(crate::specs::Met::all_met))]
    fn all(self) -> bool
        ensures { result ≡ all_met self.entry.left }
    {
        match self.left {
            Some(left) => left.len() == 0,
            None => false,
        }
    }
}

impl<'a, 's, 'b> Pieces for Met<'a, 's, 'b> {
    ghost Takes = { Meets };

    fn take(&mut self, piece: &[u8]) {
        if let Some(left) = self.left {
            self.left = left.strip_prefix(piece);
        }
    }

    ghost none = { λ a. (refl, leaves-all a.left) };

    ghost more = { λ a b c v w p q. (q.0 ∙ p.0, leaves-more a.left b.left c.left v w p.1 q.1) };
}

impl<'a, 's, 'b> Terms for Met<'a, 's, 'b> {
    ghost Looks = { λ m look. look ≡ resolve (records_of m.sheet.now) };

    fn reference(&mut self, run: &[u8]) {
        self.take(find_text(self.sheet, run));
    }

    ghost kept = { λ a b v look p l. looks-kept p.0 l };

    ghost Done = { λ m. m.left ≡ None };

    fn done(&self) -> bool {
        self.left.is_none()
    }

    ghost past = { λ a b v w p d. (p.0, leaves-past a.left b.left v w d p.1) };
}

// Does an expression begin with a literal whose first byte, one that stands for itself, is another than the text's?
fn begins_otherwise(expression: &[u8], text: &[u8]) -> bool
    ensures { result ≡ true → Differs expression.now text.now }
{
    let [quote, x, ..] = expression else {
        return false;
    };
    let [y, ..] = text else {
        return false;
    };
    (*quote == b'"') & scan::member(Set::NotQuoteNorBackslash, *x) & (*x != *y)
}

// Is an expression's text the same as another text? They are compared while the expression is read, up to the first term that differs.
pub fn is_text(text: &[u8], sheet: &Sheet<'_>, other: &[u8]) -> bool
    ensures { result ≡ same (expression (resolve (records_of sheet.now)) text.now).0 other.now }
{
    if begins_otherwise(text, other) {
        return false;
    }
    let mut to = Met {
        sheet,
        left: Some(other),
    };
    string_ends::expression(text, &mut to);
    to.all()
}
