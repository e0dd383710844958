// The pass over the characters of a string, which writes its value. What one character does there stands in mode.rt, and for any
// code point in code_point.rt.
//
// The texts are slices of bytes and no `str`: that would have to be shown whole characters before each cut, here and in eon_strings, where
// one law says so of each piece behind it (`Formed`). They are pieces of a `Text` of eon_utf8, so that they are not longer than one.
#![tactic(auto)]

ghost use Rattle.std.specs.Prelude.{◌≡◌, ◌+◌, ◌*◌, ◌^◌, ◌≤◌, ◌<◌, length, take, drop};
ghost use Rattle.std.specs.List.{take_while};
ghost use Rattle.std.proofs.lemmas.List.Edits.{sets};
ghost use Rattle.eon_spec.specs.Utf8.{encode_char};
ghost use Rattle.eon_unescape.specs.Modes.{reads_by};
ghost use Rattle.eon_unescape.specs.Views.{kept, Formed, NextIs, Reads, is_bare, RunIs};

mod chars;
mod code_point;
mod digits;
mod mode;

pub use code_point::{CodeStep, read_char};
pub use digits::Digits;
use eon_spec::Reason;
pub use mode::{Mode, Step};

// A character, and the text behind it.
#[derive(Clone, Copy)]
pub struct Next<'a> {
    pub code: char,
    pub rest: &'a [u8],
}

// The first character that is no carriage return. ASCII needs no decoding, and is most of what stands in an escape.
#[inline(always)]
pub fn next_kept(text: &[u8]) -> Option<Next<'_>>
    ensures { NextIs text.now result }
{
    match text {
        [b, rest @ ..] if b.is_ascii() && *b != b'\r' => Some(Next {
            code: char::from(*b),
            rest,
        }),
        _ => next_decoded(text),
    }
}

// A turn takes a character of one to four bytes: no iterator over bytes hands those out.
fn next_decoded(text: &[u8]) -> Option<Next<'_>>
    ensures { NextIs text.now result }
{
    let mut rest = text;
    while let Some(c) = eon_utf8::first_char(rest) {
        rest = &rest[c.len..];
        let code = c.code;
        if code != '\r' {
            return Some(Next { code, rest });
        }
    }
    None
}

// The text is unescaped into the beginning of out, as far as it reaches. The length of the value is handed back.
pub fn unescape(text: &[u8], mode: Mode, out: &mut [u8]) -> Result<usize, Reason>
    requires short { length text.now ≤ 65535 }
    requires formed { Formed text.now }
    ensures { Reads 0 out.old (reads_by mode (kept text.now)) out.new result }
{
    let mut rest = text;
    let mut mode = mode;
    let mut len = 0;
    // A `loop`, since its turns take runs of different length: no iterator hands them out.
    loop {
        let run = copy_run(rest, mode, out, len);
        len += run;
        let Some(next) = next_kept(&rest[run..]) else {
            mode.at_end()?;
            return Ok(len);
        };
        rest = next.rest;
        match mode.read_char(next.code)? {
            Step::Go(to) => mode = to,
            Step::Put(c, to) => {
                len = put_char(out, len, c);
                mode = to;
            }
        }
    }
}

// Outside an escape most bytes stand for themselves, those up to a backslash or a carriage return, and are stored. How many there are.
#[inline(always)]
fn copy_run(text: &[u8], mode: Mode, out: &mut [u8], at: usize) -> usize
    requires formed { Formed text.now }
    requires room { at + length text.now < 2 ^ 64 }
    ensures run { RunIs text.now mode result }
    ensures written { out.new ≡ sets out.old at (take result text.now) }
{
    match mode {
        Mode::Literal | Mode::Plain => {
            let run = bare_len(text);
            put(out, at, &text[..run]);
            run
        }
        Mode::Backslash | Mode::Blanks | Mode::Unicode | Mode::Digits(_) => 0,
    }
}

fn bare_len(text: &[u8]) -> usize
    ensures { result ≡ length (take_while is_bare text.now) }
{
    text.iter()
        .take_while(|b| **b != b'\\' && **b != b'\r')
        .count()
}

// The bytes of a character; of ASCII, which most are, that byte.
#[tactic(auto, using(crate::proofs::Writes::same_bytes, eon_laws::proofs::Encode::encode_one))]
fn put_char(out: &mut [u8], at: usize, c: char) -> usize
    requires { at < 2 ^ 32 }
    ensures written { out.new ≡ sets out.old at (encode_char c) }
    ensures behind { result ≡ at + length (encode_char c) }
    ensures few { result ≤ at + 4 }
{
    if c.is_ascii() {
        return put(out, at, &[c as u8]);
    }
    let mut bytes = [0; 4];
    let encoded = c.encode_utf8(&mut bytes);
    put(out, at, encoded.as_bytes())
}

// Bytes are stored where there is room, also in none, which measures. The place behind them all is handed back. No sink of eon_put: a value
// is counted on where it no longer fits.
fn put(out: &mut [u8], at: usize, bytes: &[u8]) -> usize
    requires { at + length bytes.now < 2 ^ 64 }
    ensures written { out.new ≡ sets out.old at bytes.now }
    ensures behind { result ≡ at + length bytes.now }
{
    let end = at + bytes.len();
    if out.len() <= at {
        return end;
    }
    let n = bytes.len().min(out.len() - at);
    store(&mut out[at..at + n], &bytes[..n]);
    end
}

// One after the other: `copy_from_slice` would have C's archive ask for memmove. eon_put has the same; neither crate stands on the other.
fn store(to: &mut [u8], from: &[u8])
    requires { length to.old ≡ length from.now }
    ensures { to.new ≡ from.now }
{
    for i in 0..from.len() {
        to[i] = from[i];
    }
}
