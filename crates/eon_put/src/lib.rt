// Where layout puts its bytes: a lent memory that is written, or one that is only measured.
#![tactic(auto)]

ghost use Rattle.std.specs.Prelude.{◌≡◌, List, [], ◌∷◌, ◌++◌, ℕ, ◌≤◌, length};
ghost use Rattle.std.specs.Option.{ForSome};
ghost use Rattle.eon_spec.specs.Layout.{text_of, settings_of, add_indent};

use eon_spec::FormatOptions;

pub trait Sink {
    // `puts s b t`: the bytes b were put, which made t of s.
    ghost puts: { Self → List ℕ → Self → Type 0 };

    // Apart from `put_all`, since one byte costs less than a copy.
    fn put(&mut self, byte: u8)
        ensures { puts self.old (byte ∷ []) self.new };

    fn put_all(&mut self, bytes: &[u8])
        ensures { puts self.old bytes.now self.new };

    ghost nothing: { (s : Self) → puts s [] s };

    ghost append: { (s t u : Self) (b c : List ℕ) → puts s b t → puts t c u → puts s (b ++ c) u };
}

// The room that is left, as long as all bytes fitted.
#[derive(Clone, Copy)]
pub struct Measure {
    pub left: Option<usize>,
}

impl Sink for Measure {
    ghost use Rattle.eon_put.specs.Put.{Measures};
    ghost use Rattle.eon_put.specs.Laws.{measures_nothing, measures_append};

    ghost puts = { Measures };

    ghost nothing = { measures_nothing };

    ghost append = { measures_append };

    fn put(&mut self, _byte: u8) {
        self.left = self.left.and_then(|room| room.checked_sub(1));
    }

    fn put_all(&mut self, bytes: &[u8]) {
        self.left = self.left.and_then(|room| room.checked_sub(bytes.len()));
    }
}

// A lent memory, and where the next byte goes, as long as all bytes fitted.
#[derive(Drop)]
pub struct Writer<'a> {
    pub out: &'a mut [u8],
    pub at: Option<usize>,
    ghost inside: { ForSome at (λ a. a ≤ length out.now) },
}

impl Sink for Writer<'_> {
    ghost use Rattle.eon_put.specs.Put.{Writes};
    ghost use Rattle.eon_put.specs.Laws.{writes_nothing, writes_append};

    ghost puts = { Writes };

    ghost nothing = { writes_nothing };

    ghost append = { writes_append };

    fn put(&mut self, byte: u8) {
        if let Some(at) = self.at.take() {
            if at < self.out.len() {
                self.at = Some(at + 1);
                self.out[at] = byte;
            }
        }
    }

    #[tactic(auto, using(crate::proofs::Room::copied))]
    fn put_all(&mut self, bytes: &[u8]) {
        if let Some(at) = self.at {
            let n = bytes.len().min(self.out.len() - at);
            // Before the copy, so that nothing has to be kept over it.
            self.at = (n == bytes.len()).then_some(at + n);
            store(&mut self.out[at..at + n], &bytes[..n]);
        }
    }
}

// One after the other: `copy_from_slice` would have C's archive ask for memmove.
fn store(to: &mut [u8], from: &[u8])
    requires { length to.old ≡ length from.now }
    ensures { to.new ≡ from.now }
{
    for i in 0..from.len() {
        to[i] = from[i];
    }
}

// ---- settings

// The text of a setting. Most have one byte, which costs less than a copy.
fn put_text<S: Sink>(text: &[u8], sink: &mut S)
    ensures { S.puts sink.old text.now sink.new }
{
    match text {
        [byte] => sink.put(*byte),
        _ => sink.put_all(text),
    }
}

pub fn newline<S: Sink>(options: &FormatOptions, sink: &mut S)
    ensures { S.puts sink.old (text_of options.now.newline) sink.new }
{
    put_text(options.newline.text(), sink);
}

// So many indentations. Their text is taken once: taken in each turn it cost two fifths more on a text that is nested deep.
pub fn add_indent<S: Sink>(options: &FormatOptions, n: usize, sink: &mut S)
    ensures { S.puts sink.old (add_indent (settings_of options.now) n) sink.new }
{
    let text = options.indentation.text();
    // Without an indentation a deep text costs no more than a flat one.
    if text.is_empty() {
        return;
    }
    for _ in 0..n {
        put_text(text, sink);
    }
}
