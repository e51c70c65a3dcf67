// What the program `manual` writes (document 01, section 10): the definitions of `defs.typ`, then a pass over `main.typ`.
#![tactic(auto)]

ghost use Rattle.std.specs.Prelude.{◌≡◌, length};
ghost use Rattle.rules.specs.Calls.{pass_of};
ghost use Rattle.rules.specs.Manual.{output_from, setting, built, manual_of};
ghost use Rattle.manual_text.specs.Text.{main_text, Builds};

use refusal::Refusal;

// A pass over a text of the bundle, folder empty, from a sheet: the length of what is built.
fn pass_over(
    bundle: &[u8],
    text: &[u8],
    sheet: &[u8],
    out: &mut [u8; 32768],
) -> Result<usize, Refusal>
    ensures { Builds (output_from (pass_of (setting bundle.now) sheet.now text.now)) out.old out.new result }
{
    let mut middle = [0; 32768];
    let mut left = [0; 1024];
    let r = builder::pass(bundle, b"", text, sheet, &mut middle, out, &mut left);
    Refusal::check(r.number)?;
    Ok(r.len)
}

// `main.typ`, found, and the pass over it.
fn pass_main(bundle: &[u8], sheet: &[u8], out: &mut [u8; 32768]) -> Result<usize, Refusal>
    ensures { Builds (main_text bundle.now sheet.now) out.old out.new result }
{
    let f = builder::find_file(bundle, b"main.typ");
    Refusal::check(f.number)?;
    if f.kind != 2 {
        return Err(Refusal::File);
    }
    pass_over(bundle, &bundle[f.start..f.start + f.len], sheet, out)
}

// The definitions, then the pass: 2 where the bundle is longer than 16,384 bytes, then the calls' refusals.
fn build(bundle: &[u8], out: &mut [u8; 32768]) -> Result<usize, Refusal>
    ensures { Builds (built bundle.now) out.old out.new result }
{
    if bundle.len() > 16384 {
        return Err(Refusal::Bundle);
    }
    let mut sheet = [0; 1024];
    let mut work = [0; 16384];
    let d = builder::parse_definitions(bundle, b"defs.typ", &mut sheet, &mut work);
    match Refusal::check(d.number) {
        Err(refusal) => Err(refusal),
        Ok(()) => pass_main(bundle, &sheet[..d.sheet], out),
    }
}

// What `manual` writes for a bundle: so many bytes at the start of `out`, and zero behind them.
pub fn manual(bundle: &[u8], out: &mut [u8; 32768]) -> usize
    ensures { manual_of bundle.now ≡ record { len = result; out = out.new } }
{
    match build(bundle, out) {
        Ok(len) => len,
        Err(refusal) => refusals::refusal_text(refusal.into(), out),
    }
}
