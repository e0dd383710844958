// UTF-8 by Table 3-7 of the Unicode standard: the texts that can be read (text.rt), and a text's first character.
#![tactic(auto)]

ghost use Rattle.std.specs.Prelude.{◌≡◌, ◌∷◌, [], ◌+◌, ◌*◌, ◌-◌, ◌≤◌, ◌<◌};
ghost use Rattle.std.specs.Char.{InScalarRange};
ghost use Rattle.eon_spec.specs.Utf8.{code_point, is_utf8, well_formed_len};
ghost use Rattle.eon_utf8.specs.Post.{FirstChar};

pub mod text;

use std::str;
pub use text::Text;

// A character: its code point, and its length, which its row says. From the code point the length would have to be told anew.
#[derive(Clone, Copy)]
pub struct Char {
    pub code: char,
    pub len: usize,
}

// The length of the longest well-formed beginning.
pub fn well_formed_len(text: &[u8]) -> usize
    ensures { result ≡ well_formed_len text.now }
{
    match str::from_utf8(text) {
        Ok(text) => text.len(),
        Err(fault) => fault.valid_up_to(),
    }
}

// Is it well-formed to its end?
#[tactic(auto, unfolding(eon_spec::specs::Utf8::is_utf8))]
pub fn is_utf8(text: &[u8]) -> bool
    ensures { result ≡ is_utf8 text.now }
{
    well_formed_len(text) == text.len()
}

// The well-formed character that the text begins with, row by row of the table.
#[tactic(auto, unfolding(eon_spec::specs::Utf8::char_len))]
pub fn first_char(text: &[u8]) -> Option<Char>
    ensures { FirstChar text.now result }
{
    match text {
        [a @ 0..=0x7F, ..] => Some(one(*a)),
        [a @ 0xC2..=0xDF, b @ 0x80..=0xBF, ..] => Some(two(*a, *b)),
        [a @ 0xE0, b @ 0xA0..=0xBF, c @ 0x80..=0xBF, ..] => Some(three(*a, *b, *c)),
        [
            a @ (0xE1..=0xEC | 0xEE..=0xEF),
            b @ 0x80..=0xBF,
            c @ 0x80..=0xBF,
            ..
        ] => Some(three(*a, *b, *c)),
        [a @ 0xED, b @ 0x80..=0x9F, c @ 0x80..=0xBF, ..] => Some(three(*a, *b, *c)),
        [
            a @ 0xF0,
            b @ 0x90..=0xBF,
            c @ 0x80..=0xBF,
            d @ 0x80..=0xBF,
            ..
        ] => Some(four(*a, *b, *c, *d)),
        [
            a @ 0xF1..=0xF3,
            b @ 0x80..=0xBF,
            c @ 0x80..=0xBF,
            d @ 0x80..=0xBF,
            ..
        ] => Some(four(*a, *b, *c, *d)),
        [
            a @ 0xF4,
            b @ 0x80..=0x8F,
            c @ 0x80..=0xBF,
            d @ 0x80..=0xBF,
            ..
        ] => Some(four(*a, *b, *c, *d)),
        _ => None,
    }
}

fn one(a: u8) -> Char
    ensures len { result.len ≡ 1 }
    ensures code { result.code ≡ a }
{
    Char {
        code: char::from(a),
        len: 1,
    }
}

// The functions for two, three and four bytes stay apart, and each asks that the further bytes are such: a loop over them would need every
// row's bounds as its invariant, and a type of a further byte would be made anew of each byte that a row's pattern has just bound.
fn two(a: u8, b: u8) -> Char
    requires lead { 0xC0 ≤ a }
    requires trailing { 0x80 ≤ b }
    requires scalar { InScalarRange (code_point (a ∷ b ∷ [])) }
    ensures len { result.len ≡ 2 }
    ensures code { result.code ≡ code_point (a ∷ b ∷ []) }
{
    Char {
        code: scalar(with_byte(u32::from(a - 0xC0), b)),
        len: 2,
    }
}

fn three(a: u8, b: u8, c: u8) -> Char
    requires lead { 0xE0 ≤ a }
    requires second { 0x80 ≤ b }
    requires trailing { 0x80 ≤ c }
    requires scalar { InScalarRange (code_point (a ∷ b ∷ c ∷ [])) }
    ensures len { result.len ≡ 3 }
    ensures code { result.code ≡ code_point (a ∷ b ∷ c ∷ []) }
{
    let high = with_byte(u32::from(a - 0xE0), b);
    Char {
        code: scalar(with_byte(high, c)),
        len: 3,
    }
}

fn four(a: u8, b: u8, c: u8, d: u8) -> Char
    requires lead { 0xF0 ≤ a }
    requires second { 0x80 ≤ b }
    requires third { 0x80 ≤ c }
    requires trailing { 0x80 ≤ d }
    requires scalar { InScalarRange (code_point (a ∷ b ∷ c ∷ d ∷ [])) }
    ensures len { result.len ≡ 4 }
    ensures code { result.code ≡ code_point (a ∷ b ∷ c ∷ d ∷ []) }
{
    let high = with_byte(with_byte(u32::from(a - 0xF0), b), c);
    Char {
        code: scalar(with_byte(high, d)),
        len: 4,
    }
}

// A code point with one byte more.
fn with_byte(high: u32, b: u8) -> u32
    requires room { high < 0x20000 }
    requires trailing { 0x80 ≤ b }
    ensures { result ≡ high * 64 + (b - 0x80) }
{
    high * 64 + u32::from(b - 0x80)
}

fn scalar(code: u32) -> char
    requires { InScalarRange code }
    ensures { result ≡ code }
{
    char::from_u32(code).unwrap()
}
