// A reader of tokens: it holds a reference to the text, and the place of its next byte. Its functions are thin: the work is done by
// `start` and `token_at`, on a plain slice.
#![tactic(auto)]

ghost use Rattle.std.specs.Prelude.{◌≡◌};
ghost use Rattle.eon_spec.specs.Token.{tokens};
ghost use Rattle.eon_spec.specs.Calls.{outcome_of};
ghost use Rattle.eon_token.specs.Placed.{placed_at};
ghost use Rattle.eon_reader.specs.Read.{Stands, start_of, first_token, second_token, counted, count_call};

use eon_spec::{Reason, Refusal, TokenKind};
use eon_token::token_kind::{PlacedToken, next_token};
use eon_utf8::{Text, is_utf8};

// Callers may make one of any fields, so that where it stands is asked by `next` and not by the type.
#[derive(Clone, Copy)]
pub struct Reader<'a> {
    pub text: &'a [u8],
    pub next: usize,
}

impl<'a> Reader<'a> {
    pub fn new(text: &'a [u8]) -> Self
        ensures text { result.text ≡ text.entry }
        ensures next { result.next ≡ start_of text.now }
        ensures stands { Stands result.text.now result.next }
    {
        Reader {
            text,
            next: start(text),
        }
    }

    // The next token; the reader then stands behind it. The end of the text is answered again and again, with its place: no Iterator.
    pub fn next(&mut self) -> PlacedToken
        requires { Stands self.old.text.now self.old.next }
        ensures token { result ≡ placed_at self.old.text.now self.old.next }
        ensures text { self.new.text ≡ self.old.text }
        ensures next { self.new.next ≡ result.end }
        ensures stands { Stands self.new.text.now self.new.next }
    {
        let token = token_at(self.text, self.next);
        self.next = token.end;
        token
    }
}

// The text is checked once: a reader of a text that is not well-formed starts at its end.
#[tactic(auto, unfolding(crate::specs::Read::start_of))]
pub fn start(text: &[u8]) -> usize
    ensures { result ≡ start_of text.now }
{
    if is_utf8(text) {
        return 0;
    }
    text.len()
}

// The token from a byte on, also at the end of a text that is not well-formed.
pub fn token_at(text: &[u8], at: usize) -> PlacedToken
    requires { Stands text.now at }
    ensures { result ≡ placed_at text.now at }
{
    if text.len() <= at {
        return PlacedToken {
            kind: None,
            start: text.len(),
            end: text.len(),
        };
    }
    next_token(text, at)
}

// The first token of any bytes: the end of the text if they are not well-formed.
pub fn first(text: &[u8]) -> PlacedToken
    ensures { result ≡ first_token text.now }
{
    Reader::new(text).next()
}

// The second token of any bytes: a reader is moved on.
pub fn second(text: &[u8]) -> PlacedToken
    ensures { result ≡ second_token text.now }
{
    let mut reader = Reader::new(text);
    reader.next();
    reader.next()
}

// How many tokens a text has; refused as overlong, garbled or stray.
// It costs a pass of the check, a pass of the tokens, and at most five looks for a closing mark that run to the end in vain. Behind
// an unclosed `"""` no three quotes stand in a row, save the last three of a run of five: two looks at most, and as many for `'''`.
// A look for a single quote in vain makes an invalid token, which ends the count.
#[tactic(auto, using(crate::proofs::Stand::count_refused, crate::proofs::Stand::count_good))]
pub fn count(text: &[u8]) -> Result<usize, Refusal>
    ensures { outcome_of result ≡ count_call text.now }
{
    count_checked(Text::of(text)?)
}

// How many tokens a text has, or the first invalid one. The end of the text is a token as well, of no kind: an iterator that ended there
// would hand out tokens whose kind has to be told from none once more.
fn count_checked(text: Text) -> Result<usize, Refusal>
    ensures { outcome_of result ≡ counted (tokens text.entry.str.now) }
{
    let bytes = text.bytes();
    let mut at = 0;
    let mut n = 0;
    loop {
        let token = next_token(bytes, at);
        let Some(kind) = token.kind else {
            return Ok(n);
        };
        if kind == TokenKind::Invalid {
            return Err(Refusal {
                reason: Reason::Stray,
                start: token.start,
                end: token.end,
            });
        }
        n += 1;
        at = token.end;
    }
}
