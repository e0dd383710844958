// The walk over a text's tokens: where it stands, how many records it has passed, and whether they are an old table's. `Ready` is asked as
// in readers.rt, and places of a table are bounded as in words.rt.
ghost use Rattle.std.specs.Prelude.{◌≡◌, ◌+◌, ◌≤◌, ◌<◌, ◌*◌, eqb, IsSome};
ghost use Rattle.eon_spec.specs.Token.{kind_number};
ghost use Rattle.eon_token.specs.Placed.{code_of};
ghost use Rattle.std.proofs.lemmas.List.Edits.{sets};
ghost use Rattle.eon_spec.specs.RecordKind.{word_of};
ghost use Rattle.eon_token.specs.Place.{span, place_of, next_span};
ghost use Rattle.eon_parse.specs.Walk.{refused_at, text_end};
ghost use Rattle.eon_parse.specs.Answer.{stop_of, Ready, place, moved, entered, set_cursor, begun, words_of, record_words, put_at, ended_at, Open};

use crate::words::Record;
use eon_spec::{RECORD_WORDS, Reason, RecordKind, Refusal, TokenKind};
use eon_token::cursor::Cursor;
use eon_token::token_kind::PlacedToken;

// A cursor, the number of records so far, and whether the old table has agreed: a fact beside them, whatever they are.
#[derive(Clone, Copy)]
pub struct Walk {
    pub cursor: Cursor,
    pub count: usize,
    pub same: bool,
}

// A record whose end is still to come: its number and its start, and where a variant's name ends, which is asked of a variant
// alone: an Option would say once more what the kind says.
#[derive(Clone, Copy)]
pub struct Begun {
    pub kind: RecordKind,
    pub base: usize,
    pub start: usize,
    pub name: usize,
}

// A refusal, and the end of the last token consumed.
#[derive(Clone, Copy)]
pub struct Stop {
    pub refusal: Refusal,
    pub consumed: usize,
}

// The walk behind a value, and where the value ends without its suffix comment. A comma may replace that comment, so until one is ruled out
// no more is kept of it than the two ends.
#[derive(Clone, Copy)]
pub struct Past {
    pub walk: Walk,
    pub from: usize,
}

impl Walk {
    #[inline(always)]
    pub fn kind(self) -> Option<TokenKind>
        ensures { result ≡ self.cursor.peeked.kind }
    {
        self.cursor.peek().kind
    }

    // At another place.
    #[inline(always)]
    pub fn at(self, cursor: Cursor) -> Walk
        ensures { result ≡ set_cursor self cursor }
    {
        Walk { cursor, ..self }
    }

    // Past the next token.
    #[inline(always)]
    pub fn skip(self, text: &[u8]) -> Walk
        requires ready { Ready text.now self.cursor self.count }
        requires token { IsSome self.cursor.peeked.kind }
        ensures { result ≡ moved text.now self (next_span text.now (place self)) }
    {
        self.at(self.cursor.next(text))
    }

    // Past a token that starts a record: the record is counted, and is compared and stored once its end is known.
    #[inline(always)]
    pub fn enter(self, text: &[u8]) -> Walk
        requires ready { Ready text.now self.cursor self.count }
        requires token { IsSome self.cursor.peeked.kind }
        ensures { result ≡ entered text.now self (next_span text.now (place self)) }
    {
        Walk {
            count: self.count + 1,
            ..self.skip(text)
        }
    }

    // A record that starts with the next token.
    #[inline(always)]
    pub fn begin(self, kind: RecordKind) -> Begun
        ensures { result ≡ begun kind self.count self.cursor.peeked.start 0 }
    {
        Begun {
            kind,
            base: self.count,
            start: self.cursor.peek().start,
            name: 0,
        }
    }

    // The record ends here.
    #[inline(always)]
    pub fn end(self, old: &[u32], out: &mut [u32], begun: Begun) -> Walk
        requires { Open self begun }
        ensures walk { result ≡ ended_at self old.now begun }
        ensures stored { out.new ≡ sets out.old (5 * begun.base) (record_words self begun) }
    {
        let end = self.cursor.end;
        let row = Record {
            kind: begun.kind,
            start: begun.start as u32,
            text_end: begun.text_end(end) as u32,
            end: end as u32,
            size: (self.count - begun.base) as u32,
        };
        self.put(old, out, RECORD_WORDS * begun.base, row)
    }

    // The record is compared with the old table's at i, and stored there.
    #[inline(always)]
    pub fn put(self, old: &[u32], out: &mut [u32], i: usize, row: Record) -> Walk
        requires { i < 1000000 }
        ensures walk { result ≡ put_at self old.now i (words_of row) }
        ensures stored { out.new ≡ sets out.old i (words_of row) }
    {
        row.store_in(out, i);
        Walk {
            same: self.same && row.is_in(old, i),
            ..self
        }
    }
}

impl Begun {
    // A variant's text is its name; anything else's goes to its end.
    fn text_end(self, end: usize) -> usize
        ensures { result ≡ text_end (word_of self.kind) self.name end }
    {
        if self.kind == RecordKind::Variant {
            self.name
        } else {
            end
        }
    }
}

impl Stop {
    // Refused at a token, which counts as consumed.
    pub fn at(reason: Reason, token: PlacedToken) -> Stop
        ensures { result ≡ stop_of (refused_at reason (span token.start token.end)) token.end }
    {
        Stop {
            refusal: refusal_at(reason, token),
            consumed: token.end,
        }
    }

    // Refused at the last token consumed.
    pub fn behind(reason: Reason, cursor: Cursor) -> Stop
        ensures { result ≡ stop_of (refused_at reason (place_of cursor)) cursor.end }
    {
        Stop {
            refusal: Refusal {
                reason,
                start: cursor.start,
                end: cursor.end,
            },
            consumed: cursor.end,
        }
    }
}

// Is the next token of this kind?
pub fn next_is(cursor: Cursor, kind: TokenKind) -> bool
    ensures { result ≡ eqb (code_of cursor.peeked.kind) (kind_number kind) }
{
    cursor.peek().kind == Some(kind)
}

// Refused at a token.
pub fn refusal_at(reason: Reason, token: PlacedToken) -> Refusal
    ensures { result ≡ refused_at reason (span token.start token.end) }
{
    Refusal {
        reason,
        start: token.start,
        end: token.end,
    }
}
