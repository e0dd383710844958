// The quotes around a text, and what stands between them. The texts are slices of bytes, each `Formed`: eon_unescape says why they are no
// `str`.
ghost use Rattle.std.specs.Prelude.{◌≡◌, ◌≤◌, ◌<◌, length, IfOk};
ghost use Rattle.eon_spec.specs.Unquote.{one_line_only, drop_line_feed, unquote_chars};
ghost use Rattle.eon_unescape.specs.Modes.{reads_by};
ghost use Rattle.eon_unescape.specs.Views.{kept, Formed, BytesOf, TailOf};
ghost use Rattle.eon_strings.specs.Views.{BehindIs, BeforeIs, OneBeforeIs, PieceOf, given, ModeIs};

use eon_spec::Reason;
use eon_unescape::Mode;

// What stands between the quotes, and how it is read.
#[derive(Clone, Copy)]
pub struct Contents<'a> {
    pub text: &'a [u8],
    pub mode: Mode,
}

// What opens and closes a text: so many quotes, each of them ASCII and no carriage return.
#[derive(Clone, Copy)]
struct Mark {
    quote: u8,
    count: usize,
    ghost ascii: { quote < 128 },
    ghost no_return: { 13 < quote },
}

const THREE_SINGLE: Mark = Mark {
    quote: b'\'',
    count: 3,
};

const SINGLE: Mark = Mark {
    quote: b'\'',
    count: 1,
};

const THREE_DOUBLE: Mark = Mark {
    quote: b'"',
    count: 3,
};

const DOUBLE: Mark = Mark {
    quote: b'"',
    count: 1,
};

// Openings are tried in the order `'''`, `'`, `"""`, `"`. Four times the same two steps, and no loop over the marks, since behind them each
// goes on in its own way.
pub fn in_quotes(text: &[u8]) -> Result<Contents<'_>, Reason>
    requires { Formed text.now }
    ensures given { unquote_chars (kept text.now) ≡ given result }
    ensures formed { IfOk result (λ c. Formed c.text.now) }
    ensures shorter { IfOk result (λ c. length c.text.now ≤ length text.now) }
    ensures piece { IfOk result (λ c. PieceOf text.now c.text.now) }
    ensures bytes { IfOk result (λ c. BytesOf text.now c.text.now) }
    ensures mode { IfOk result (λ c. ModeIs text.now c.mode) }
{
    if let Some(rest) = behind(text, THREE_SINGLE) {
        let inner = before(rest, THREE_SINGLE)?;
        return Ok(Contents {
            text: without_line_feed(inner),
            mode: Mode::Literal,
        });
    }
    if let Some(rest) = behind(text, SINGLE) {
        let inner = before(rest, SINGLE)?;
        return one_line(inner, Mode::Literal);
    }
    if let Some(rest) = behind(text, THREE_DOUBLE) {
        let inner = before(rest, THREE_DOUBLE)?;
        return Ok(Contents {
            text: inner,
            mode: Mode::Plain,
        });
    }
    if let Some(rest) = behind(text, DOUBLE) {
        let inner = before(rest, DOUBLE)?;
        return one_line(inner, Mode::Plain);
    }
    Err(Reason::NoOpeningQuote)
}

// The text behind an opening mark.
#[tactic(auto, using(eon_unescape::proofs::Lists::tail_of_tail))]
fn behind(text: &[u8], mark: Mark) -> Option<&[u8]>
    ensures { BehindIs text.now mark.quote mark.count result }
{
    let mut rest = text;
    for _i in 0..mark.count {
        let next = eon_unescape::next_kept(rest)?;
        if next.code != char::from(mark.quote) {
            return None;
        }
        rest = next.rest;
    }
    Some(rest)
}

// The text before a closing mark.
fn before(text: &[u8], mark: Mark) -> Result<&[u8], Reason>
    requires { Formed text.now }
    ensures { BeforeIs text.now mark.quote mark.count result }
{
    let mut rest = text;
    for _i in 0..mark.count {
        let Some(front) = before_one(rest, mark) else {
            return Err(Reason::NoClosingQuote);
        };
        rest = front;
    }
    Ok(rest)
}

// The text before one quote of the mark. A quote is ASCII, so it is the last byte but for carriage returns. A pattern takes the last byte
// and what stands before it at once; `rposition` gives a place, at which the slice would still have to be cut.
fn before_one(text: &[u8], mark: Mark) -> Option<&[u8]>
    requires { Formed text.now }
    ensures { OneBeforeIs text.now mark.quote result }
{
    let mut rest = text;
    while let [front @ .., last] = rest {
        if *last == mark.quote {
            return Some(front);
        }
        if *last != b'\r' {
            return None;
        }
        rest = front;
    }
    None
}

// A string that must stand on one line.
fn one_line(text: &[u8], mode: Mode) -> Result<Contents<'_>, Reason>
    requires { Formed text.now }
    ensures given { one_line_only (reads_by mode) (kept text.now) ≡ given result }
    ensures text { IfOk result (λ c. c.text.now ≡ text.now) }
    ensures mode { IfOk result (λ c. c.mode ≡ mode) }
{
    if text.contains(&b'\n') {
        return Err(Reason::LineBreak);
    }
    Ok(Contents { text, mode })
}

// Literal text without a leading line feed.
fn without_line_feed(text: &[u8]) -> &[u8]
    ensures behind { TailOf text.now result.now }
    ensures dropped { drop_line_feed (kept text.now) ≡ kept result.now }
    ensures formed { Formed text.now → Formed result.now }
    ensures shorter { length result.now ≤ length text.now }
    ensures bytes { BytesOf text.now result.now }
{
    match eon_unescape::next_kept(text) {
        Some(next) if next.code == '\n' => next.rest,
        _ => text,
    }
}
