// The tokens of a text one after the other, each scanned once (PeekableIter of parse.rs).
ghost use Rattle.std.specs.Prelude.{◌≡◌, true, false, ◌≤◌, length, IsSome};
ghost use Rattle.eon_spec.specs.Utf8.{is_utf8};
ghost use Rattle.eon_spec.specs.Token.{tokens};
ghost use Rattle.eon_spec.specs.Parse.{behind, skip};
ghost use Rattle.eon_token.specs.Place.{span, place_of, cursor_at, next_span, line_feed, stands_for, Standing};

use crate::token_kind::{PlacedToken, next_token};

// The span of the last token consumed, and the token behind it.
#[derive(Clone, Copy)]
pub struct Cursor {
    pub start: usize,
    pub end: usize,
    pub peeked: PlacedToken,
}

impl Cursor {
    // At the text's start: all tokens are still to come.
    pub fn new(text: &[u8]) -> Cursor
        requires { is_utf8 text.now ≡ true }
        ensures place { result ≡ cursor_at text.now (span 0 0) }
        ensures stands { stands_for text.now result ≡ behind (span 0 0) (tokens text.now) }
    {
        Cursor {
            start: 0,
            end: 0,
            peeked: next_token(text, 0),
        }
    }

    pub fn peek(self) -> PlacedToken
        ensures { result ≡ self.peeked }
    {
        self.peeked
    }

    // Behind the next token: only the token after it is scanned.
    pub fn next(self, text: &[u8]) -> Cursor
        requires standing { Standing text.now self }
        requires there { IsSome self.peeked.kind }
        ensures place { result ≡ cursor_at text.now (next_span text.now (place_of self)) }
        ensures stands { stands_for text.now result ≡ skip (stands_for text.now self) }
    {
        let PlacedToken {
            kind: _,
            start,
            end,
        } = self.peeked;
        Cursor {
            start,
            end,
            peeked: next_token(text, end),
        }
    }
}

// Does a line feed stand between two places?
pub fn line_feed(text: &[u8], a: usize, b: usize) -> bool
    requires order { a ≤ b }
    requires within { b ≤ length text.now }
    ensures { result ≡ line_feed text.now a b }
{
    text[a..b].contains(&b'\n')
}
