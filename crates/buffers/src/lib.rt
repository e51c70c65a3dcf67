// Writing into lent buffers: a text stored at a place, the writer that knows how much room there is, zero fill.
#![tactic(auto)]

ghost use Rattle.std.specs.Prelude.{◌≡◌, ◌+◌, ◌≤◌, length, take};
ghost use Rattle.std.specs.Option.{SomeIff};
ghost use Rattle.std.proofs.lemmas.List.Edits.{sets};
ghost use Rattle.rules.specs.Calls.{padded};

pub mod writer;

// Stores a text at a place; what would lie past the end is left out.
pub fn store(out: &mut [u8], at: usize, text: &[u8])
    ensures { out.new ≡ sets out.old at text.now }
{
    let n = text.len().min(out.len().saturating_sub(at));
    // A loop, as copy_from_slice is compiled as a call, also for an empty text and for one byte; a long text moves 32 bytes at a time here.
    for (i, x) in text[..n].iter().enumerate() {
        out[at + i] = *x;
    }
}

// Where a writer at p goes on behind n bytes; none where there is no room for them.
pub fn within(room: usize, p: usize, n: usize) -> Option<usize>
    ensures { SomeIff result (p + n ≤ room) (p + n) }
{
    if room < p || room - p < n {
        return None;
    }
    Some(p + n)
}

// Zeros from a place on.
pub fn clear_from(out: &mut [u8], from: usize)
    requires { from ≤ length out.old }
    ensures { out.new ≡ padded (length out.old) (take from out.old) }
{
    out[from..].fill(0);
}
