// The lookups of the public calls: a text in a sheet, what it stands for at the start of a buffer; a path in a bundle. Each answers as the rules say;
// what stands in the buffer behind the text is left as it is.
#![tactic(auto)]

ghost use Rattle.lookups.specs.Files.{FindsFile};
ghost use Rattle.lookups.specs.Text.{Resolves};

use buffers::writer::Writer;
use refusal::Refusal;
use sheet::Name;
use sheet::lookup::Found;

// What a text in a sheet is looked up as, its text at the start of a buffer: 3, 6, 11.
pub fn resolve(sheet: &[u8], path: &[u8], out: &mut [u8]) -> Result<Option<Found>, Refusal>
    ensures { Resolves sheet.now path.now out.old out.new result }
{
    let Some(sheet) = sheet_layout::check(sheet) else {
        return Err(Refusal::Sheet);
    };
    if !scan::is_ascii(path) {
        return Err(Refusal::Byte);
    }
    let found = sheet.lookup(Name::Plain(path));
    let mut w = Writer::new(out, Refusal::Output);
    w.put(sheet.found_text(found))?;
    Ok(found)
}

// What a path is in a bundle: 2, 4.
pub fn find_file(bundle: &[u8], path: &[u8]) -> Result<bundle::Found, Refusal>
    ensures { FindsFile bundle.now path.now result }
{
    let Some(bundle) = bundle_layout::check(bundle) else {
        return Err(Refusal::Bundle);
    };
    if !paths::is_path(path) {
        return Err(Refusal::Path);
    }
    Ok(bundle.find(path))
}
