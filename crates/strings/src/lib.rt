// Strings and expressions (document 01, section 3): put by a writer, their references looked up in a sheet.
#![tactic(auto)]

ghost use Rattle.std.specs.Prelude.{◌≡◌};
ghost use Rattle.rules.specs.Bytes.{underscored};
ghost use Rattle.rules.specs.Sheet.{resolve, text_of};
ghost use Rattle.rules.specs.Strings.{literal, expression};
ghost use Rattle.sheet.specs.Records.{records_of};
ghost use Rattle.string_ends.specs.Ends.{Reads};
ghost use Rattle.strings.specs.Written.{Written};

use buffers::writer::Writer;
use looked::Looked;
use piece_writer::PieceWriter;
use refusal::Refusal;
use scan::Read;
use sheet::{Name, Sheet};
use string_ends::Pieces;

pub mod looked;
pub mod piece_writer;

// The text that a run stands for: each `-` made `_`, then looked up. It is a part of the sheet, empty where there is no text.
pub fn find_text<'a>(sheet: &Sheet<'a>, run: &[u8]) -> &'a [u8]
    ensures { result.now ≡ text_of (resolve (records_of sheet.now) (underscored run.now)) }
{
    sheet.text(Name::Reference(run))
}

// Reads a literal from behind its quote, and puts its text; how many bytes it takes is told whether or not there is room.
pub fn literal(text: &[u8], w: &mut Writer<'_>) -> Read<Result<(), Refusal>>
    ensures { Written (literal text.now) text.now w.old w.new result }
{
    let mut to = PieceWriter {
        to: w,
        outcome: Ok(()),
    };
    let used = string_ends::literal(text, &mut to);
    Read {
        what: to.outcome,
        used,
    }
}

// Reads an expression whose references are looked up in a sheet; how many bytes it takes.
pub fn read_expression<P: Pieces>(text: &[u8], sheet: &Sheet<'_>, to: &mut P) -> usize
    ensures { Reads P.Takes (expression (resolve (records_of sheet.now)) text.now) text.now to.old result to.new }
{
    let mut looked = Looked { sheet, to };
    string_ends::expression(text, &mut looked)
}

// Reads an expression, and puts its text; how many bytes it takes is told, too.
pub fn expression(text: &[u8], sheet: &Sheet<'_>, w: &mut Writer<'_>) -> Read<Result<(), Refusal>>
    ensures { Written (expression (resolve (records_of sheet.now)) text.now) text.now w.old w.new result }
{
    let mut to = PieceWriter {
        to: w,
        outcome: Ok(()),
    };
    let used = read_expression(text, sheet, &mut to);
    Read {
        what: to.outcome,
        used,
    }
}
