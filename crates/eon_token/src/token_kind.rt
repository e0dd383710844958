// The tokens of a text, one after the other: the longest match of the printed rules at a place.
ghost use Rattle.std.specs.Prelude.{◌≡◌, Bool, true, false, ℕ, ◌+◌, ◌≤◌, ◌<◌, length, get_or, drop, Some, MatchBool};
ghost use Rattle.eon_spec.specs.Utf8.{is_utf8, Boundary};
ghost use Rattle.eon_token.specs.Placed.{placed_at, kind_of};
ghost use Rattle.eon_token.specs.Machine.{class, one_byte_kind, in_classes, class_of, byte_of, run, closed, inside_s, multi_s, plain_k, multi_k, Found, finish, from_b, KeepsWhile};

use eon_spec::TokenKind;

// A token and its place in bytes; no kind at the end of the text.
#[derive(Clone, Copy, PartialEq, Eq)]
pub struct PlacedToken {
    pub kind: Option<TokenKind>,
    pub start: usize,
    pub end: usize,
}

// The mark at both ends of a string.
#[derive(Clone, Copy)]
enum Quote {
    Double,
    Single,
}

impl PlacedToken {
    fn new(kind: TokenKind, start: usize, end: usize) -> Self
        ensures { result ≡ record { kind = Some kind; start = start; end = end } }
    {
        PlacedToken {
            kind: Some(kind),
            start,
            end,
        }
    }
}

impl Quote {
    fn byte(self) -> u8
        ensures { result ≡ byte_of self }
    {
        match self {
            Quote::Double => b'"',
            Quote::Single => b'\'',
        }
    }

    // The kind of a string between one mark on each side. This and the next are two columns of a table; a flag would choose between them.
    fn plain(self) -> TokenKind
        ensures { result ≡ kind_of (plain_k (class_of self)) }
    {
        match self {
            Quote::Double => TokenKind::DoubleQuotedString,
            Quote::Single => TokenKind::SingleQuotedString,
        }
    }

    // The kind of a string between three marks on each side.
    fn multiline(self) -> TokenKind
        ensures { result ≡ kind_of (multi_k (class_of self)) }
    {
        match self {
            Quote::Double => TokenKind::MultilineBasicString,
            Quote::Single => TokenKind::MultilineLiteralString,
        }
    }
}

// The token at `at` or after the white space there.
pub fn next_token(text: &[u8], at: usize) -> PlacedToken
    requires formed { is_utf8 text.now ≡ true }
    requires boundary { Boundary text.now at }
    ensures { result ≡ placed_at text.now at }
{
    let start = end_while(text, at, is_blank);
    if start < text.len() {
        return lexeme(text, start);
    }
    PlacedToken {
        kind: None,
        start,
        end: start,
    }
}

// The token at a byte that is no white space. Text and place stay two arguments, here and below: a struct of both would be made anew,
// and its invariant proved anew, at each step from `start` on.
fn lexeme(text: &[u8], start: usize) -> PlacedToken
    requires { start < length text.now }
    ensures { result ≡ from_b start (drop start text.now) }
{
    let b = text[start];
    if is_letter(b) {
        let end = end_while(text, start + 1, is_word);
        return PlacedToken::new(TokenKind::Identifier, start, end);
    }
    if is_number(b) {
        let end = end_while(text, start + 1, is_number);
        return PlacedToken::new(TokenKind::Number, start, end);
    }
    if let Some(kind) = one_byte(b) {
        return PlacedToken::new(kind, start, start + 1);
    }
    match b {
        b'/' => slash(text, start),
        b'"' => quoted(text, start, Quote::Double),
        b'\'' => quoted(text, start, Quote::Single),
        _ => stray(text, start),
    }
}

// The kind of a token of one byte.
fn one_byte(b: u8) -> Option<TokenKind>
    ensures { result ≡ one_byte_kind b }
{
    match b {
        b'[' => Some(TokenKind::OpenList),
        b']' => Some(TokenKind::CloseList),
        b'{' => Some(TokenKind::OpenBrace),
        b'}' => Some(TokenKind::CloseBrace),
        b'(' => Some(TokenKind::OpenParen),
        b')' => Some(TokenKind::CloseParen),
        b':' => Some(TokenKind::Colon),
        b',' => Some(TokenKind::Comma),
        _ => None,
    }
}

// The token at a slash: a comment if there are two.
fn slash(text: &[u8], start: usize) -> PlacedToken
    requires within { start < length text.now }
    requires slash { get_or text.now start 0 ≡ 47 }
    ensures { result ≡ from_b start (drop start text.now) }
{
    let next = start + 1;
    if !stands(text, next, b'/') {
        return stray(text, start);
    }
    let end = end_while(text, next + 1, |b| b != b'\n');
    PlacedToken::new(TokenKind::Comment, start, end)
}

// The token at a quote.
fn quoted(text: &[u8], start: usize, quote: Quote) -> PlacedToken
    requires within { start < length text.now }
    requires quote { get_or text.now start 0 ≡ byte_of quote }
    ensures { result ≡ from_b start (drop start text.now) }
{
    let inside = start + 1;
    if stands(text, inside, quote.byte()) {
        return twice(text, start, quote);
    }
    match close(text, inside, quote) {
        Some(end) => PlacedToken::new(quote.plain(), start, end),
        None => stray(text, start),
    }
}

// The token at two quotes: the empty string, or a string between three quotes if there is its end.
fn twice(text: &[u8], start: usize, quote: Quote) -> PlacedToken
    requires within { start + 1 < length text.now }
    requires first { get_or text.now start 0 ≡ byte_of quote }
    requires second { get_or text.now (start + 1) 0 ≡ byte_of quote }
    ensures { result ≡ from_b start (drop start text.now) }
{
    let end = start + 2;
    let empty = PlacedToken::new(quote.plain(), start, end);
    if !stands(text, end, quote.byte()) {
        return empty;
    }
    match close_triple(text, end + 1, quote) {
        Some(close) => PlacedToken::new(quote.multiline(), start, close),
        None => empty,
    }
}

// The character at `start` as an invalid token.
fn stray(text: &[u8], start: usize) -> PlacedToken
    requires { start < length text.now }
    ensures { result ≡ finish start (drop start text.now) Found.miss }
{
    let end = end_while(text, start + 1, is_further);
    PlacedToken::new(TokenKind::Invalid, start, end)
}

// The end of a string with one quote on each side, whose inside starts at `from`.
fn close(text: &[u8], from: usize, quote: Quote) -> Option<usize>
    requires { from ≤ length text.now }
    ensures { run (inside_s (class_of quote)) Found.miss from (drop from text.now) ≡ closed (plain_k (class_of quote)) result }
{
    match quote {
        Quote::Double => close_double(text, from),
        Quote::Single => close_single(text, from),
    }
}

// The end of a double-quoted string whose inside starts at `from`: past the first double quote that no backslash takes.
fn close_double(text: &[u8], from: usize) -> Option<usize>
    requires { from ≤ length text.now }
    ensures { run 16 Found.miss from (drop from text.now) ≡ closed 12 result }
{
    let mut rest = &text[from..];
    while let Some((b, tail)) = rest.split_first() {
        match *b {
            b'"' => return Some(text.len() - tail.len()),
            b'\\' => {
                let (taken, behind) = tail.split_first()?;
                if *taken == b'\n' {
                    return None;
                }
                rest = behind;
            }
            _ => rest = tail,
        }
    }
    None
}

// The end of a single-quoted string whose inside starts at `from`: past the first single quote.
fn close_single(text: &[u8], from: usize) -> Option<usize>
    requires { from ≤ length text.now }
    ensures { run 19 Found.miss from (drop from text.now) ≡ closed 13 result }
{
    let end = end_while(text, from, |b| b != b'\'');
    if end < text.len() {
        Some(end + 1)
    } else {
        None
    }
}

// The end of a string whose inside starts at `from`: past the first three quotes in a row.
fn close_triple(text: &[u8], from: usize, quote: Quote) -> Option<usize>
    requires { from ≤ length text.now }
    ensures { run (multi_s (class_of quote) 0) Found.miss from (drop from text.now) ≡ closed (multi_k (class_of quote)) result }
{
    let mark = quote.byte();
    // The quotes in a row are counted, so that each byte is looked at once; a window of three looks at a quote up to three times.
    let mut marks: u8 = 0;
    for i in from..text.len() {
        if text[i] != mark {
            marks = 0;
            continue;
        }
        if marks == 2 {
            return Some(i + 1);
        }
        marks += 1;
    }
    None
}

// Does the byte b stand at i?
fn stands(text: &[u8], i: usize, b: u8) -> bool
    ensures { MatchBool result ((i < length text.now) × (get_or text.now i 0 ≡ b)) (i < length text.now → get_or text.now i 0 ≡ b → ⊥) }
{
    text.get(i) == Some(&b)
}

// The end of the bytes from `from` on of which `inside` holds. The `for` goes over places, since the end is one: in a slice of the rest
// they would be counted from anew.
fn end_while<F: Fn(u8) -> bool>(text: &[u8], from: usize, inside: F) -> usize
    requires within { from ≤ length text.now }
    requires callable { F.IsAlwaysCallable inside }
    ensures ends { KeepsWhile (F.post inside) text.now from result }
{
    for i in from..text.len() {
        if !inside(text[i]) {
            return i;
        }
    }
    text.len()
}

#[tactic(auto, using(crate::proofs::Bytes::blank_is))]
fn is_blank(b: u8) -> bool
    ensures { result ≡ in_classes 0 1 b }
{
    b.is_ascii_whitespace()
}

// A byte that an identifier begins with.
#[tactic(auto, using(crate::proofs::Bytes::letter_is))]
fn is_letter(b: u8) -> bool
    ensures { result ≡ in_classes 2 2 b }
{
    b.is_ascii_alphabetic() || b == b'_'
}

// A byte of an identifier. The most frequent are told by two tests.
#[tactic(auto, using(crate::proofs::Bytes::word_is))]
fn is_word(b: u8) -> bool
    ensures { result ≡ in_classes 2 3 b }
{
    if b'a' <= b {
        return b <= b'z';
    }
    is_letter(b) || b.is_ascii_digit()
}

// A byte of a number. Most are digits, and are told first.
#[tactic(auto, using(crate::proofs::Bytes::number_is))]
fn is_number(b: u8) -> bool
    ensures { result ≡ in_classes 2 4 b }
{
    if b.is_ascii_digit() {
        return true;
    }
    is_word(b) || b == b'.' || b == b'-' || b == b'+'
}

// A byte of a character behind its first.
#[tactic(auto, using(crate::proofs::Bytes::further_is))]
fn is_further(b: u8) -> bool
    ensures { result ≡ in_classes 5 5 b }
{
    matches!(b, 0x80..=0xBF)
}
