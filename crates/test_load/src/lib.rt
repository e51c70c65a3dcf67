// The test load (E2): the generator, the two lists of pieces, and the load of a seed at the start of a buffer.
#![tactic(auto)]

ghost use Rattle.std.specs.Prelude.{◌≡◌, ◌<◌, map};
ghost use Rattle.rules.specs.Load.{next, draw, load, list_of};
ghost use Rattle.rules.specs.Run.{put, ok};
ghost use Rattle.buffers.specs.Wrote.{Wrote};
ghost use Rattle.test_load.specs.Load.{Loads};

use buffers::writer::Writer;
use refusal::Refusal;

// The next state; the product and the sum wrap.
#[tactic(auto, unfolding(rules::specs::Load::next, rules::specs::Load::wrap))]
fn next(state: u32) -> u32
    ensures { result ≡ next state }
{
    1664525_u32.wrapping_mul(state).wrapping_add(1013904223)
}

// The generator, by its state.
#[derive(Clone, Copy)]
struct Generator {
    state: u32,
}

impl Generator {
    // A draw below n, from the new state.
    #[tactic(auto, unfolding(rules::specs::Load::draw))]
    fn draw(&mut self, n: u32) -> u32
        requires { 0 < n }
        ensures value { result ≡ draw n self.old.state }
        ensures state { self.new.state ≡ next self.old.state }
        ensures below { result < n }
    {
        let new = next(self.state);
        let value = (new >> 16) % n;
        self.state = new;
        value
    }
}

// The list of definition pieces where `definitions` is true, else that of document pieces.
#[tactic(auto, unfolding(rules::specs::Load::list_of, rules::specs::Load::definition_pieces, rules::specs::Load::document_pieces))]
fn pieces(definitions: bool) -> [&'static [u8]; 8]
    ensures { map (λ p. p.now) result ≡ list_of definitions }
{
    if !definitions {
        return [
            b"#x",
            b"#x.",
            b"#raw(x)",
            b"#link(\"u\")[t]",
            b"\n",
            b"#let y = x\n",
            b" ",
            b"none",
        ];
    }
    [
        b"#let x = \"10\"\n",
        b"(a:",
        b")",
        b"none",
        b", ",
        b"#let d = ",
        b"\"\\q\"",
        b"\n",
    ]
}

// Puts the pieces that a seed draws from a list one behind the other.
fn put_load(pieces: [&[u8]; 8], seed: u32, w: &mut Writer<'_>) -> Result<(), Refusal>
    ensures { Wrote (put (load (map (λ p. p.now) pieces.entry) seed) ok) w.old w.new result }
{
    let mut generator = Generator { state: seed };
    let count = generator.draw(32) + 1;
    'pieces: for _ in 0..count {
        let k = generator.draw(8) as usize;
        w.put(pieces[k])?;
    }
    Ok(())
}

// The load of a seed at the start of a buffer, from the list of definition pieces where `definitions` is true, else from that of document pieces. Refused: 11.
// What stands behind it, and in all of the buffer where it is refused, is for the caller to clear.
pub fn test_load(seed: u32, definitions: bool, out: &mut [u8]) -> Result<usize, Refusal>
    ensures { Loads seed definitions out.old out.new result }
{
    let mut w = Writer::new(out, Refusal::Output);
    put_load(pieces(definitions), seed, &mut w)?;
    Ok(w.at)
}
