// The first bytes of a text that comes piece by piece.
ghost use Rattle.std.specs.Prelude.{take};
ghost use Rattle.rules.specs.Sheet.{resolve};
ghost use Rattle.rules.specs.Strings.{expression};
ghost use Rattle.sheet.specs.Records.{records_of};
ghost use Rattle.raw_content.specs.First.{TakesFirst, first-none, first-more};

use sheet::Sheet;
use string_ends::Pieces;

// Hands on so many bytes of a text; those behind them are left out.
#[derive(Drop)]
pub struct FirstBytes<'a, P: Pieces> {
    pub left: usize,
    pub to: &'a mut P,
}

impl<'a, P: Pieces> Pieces for FirstBytes<'a, P> {
    ghost Takes = { TakesFirst P.Takes };

    fn take(&mut self, piece: &[u8]) {
        let n = piece.len().min(self.left);
        self.to.take(&piece[..n]);
        self.left -= n;
    }

    ghost none = { λ a. first-none P.Takes a (P.none a.to.now) };

    ghost more = { λ a b c v w p q. first-more P.Takes a b c v w p q (P.more a.to.now b.to.now c.to.now) };
}

// Reads an expression, and takes the first n bytes of its text.
pub fn read_first<P: Pieces>(text: &[u8], sheet: &Sheet<'_>, n: usize, to: &mut P)
    ensures { P.Takes to.old (take n (expression (resolve (records_of sheet.now)) text.now).0) to.new }
{
    let mut first = FirstBytes { left: n, to };
    strings::read_expression(text, sheet, &mut first);
}
