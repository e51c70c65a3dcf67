// What the program `manual` writes for a refusal (document 01, section 10).
#![tactic(auto)]

ghost use Rattle.std.specs.Prelude.{◌≤◌, length};
ghost use Rattle.rules.specs.Answer.{refused};
ghost use Rattle.rules.specs.Manual.{shown};
ghost use Rattle.refusals.specs.Text.{Shows, Leaves};

// Puts the text of a refusal at the start of a buffer: `refused N` and newline.
fn put_text(number: u8, out: &mut [u8]) -> usize
    requires { 11 ≤ length out.old }
    ensures { Shows (shown (refused number)) out.old out.new result }
{
    buffers::store(out, 0, b"refused ");
    let one_digit = number < 10;
    if one_digit {
        buffers::store(out, 8, &[b'0' + number, b'\n']);
        return 10;
    }
    buffers::store(out, 8, &[b'0' + number / 10, b'0' + number % 10, b'\n']);
    11
}

// The text of a refusal at the start of a buffer, and zero behind it.
pub fn refusal_text(number: u8, out: &mut [u8]) -> usize
    requires { 11 ≤ length out.old }
    ensures { Leaves (shown (refused number)) out.old out.new result }
{
    let n = put_text(number, out);
    buffers::clear_from(out, n);
    n
}
