// Comments, and the end of a value. `Ready` is asked here as in readers.rt. Text, tables and walk stay apart: of a struct that holds the
// table that is stored to, each call would have to borrow it anew.
ghost use Rattle.std.specs.Prelude.{◌≡◌, ◌≤◌, ◌+◌, false, eqb, IsSome, [], ◌∷◌};
ghost use Rattle.eon_spec.specs.RecordKind.{word_of};
ghost use Rattle.eon_spec.specs.Records.{leaf};
ghost use Rattle.eon_token.specs.Placed.{code_of};
ghost use Rattle.eon_token.specs.Place.{place_of, cursor_at, next_span};
ghost use Rattle.eon_parse.specs.Walk.{closes, run, end_of, suffix_end, tail_r, stops, got};
ghost use Rattle.eon_parse.specs.Answer.{Ready, place, emit, tailed, stored, ran, Stored, settled_r};

use crate::walk::{Begun, Past, Walk, next_is};
use eon_spec::{RecordKind, TokenKind};
use eon_token::cursor::{Cursor, line_feed};

// The comments from here on are records of a kind (parse_comments).
#[inline(always)]
pub fn comments(text: &[u8], old: &[u32], out: &mut [u32], w: Walk, kind: RecordKind) -> Walk
    requires ready { Ready text.now w.cursor w.count }
    requires nameless { eqb (word_of kind) 6 ≡ false }
    ensures walk { result ≡ ran text.now old.now w (run text.now (word_of kind) (place w)) }
    ensures stored { Stored out.old w (run text.now (word_of kind) (place w)) out.new }
{
    let mut d = w;
    while next_is(d.cursor, TokenKind::Comment) {
        d = leaf(text, old, out, d, kind);
    }
    d
}

// The next token is a record with nothing inside.
#[inline(always)]
pub fn leaf(text: &[u8], old: &[u32], out: &mut [u32], w: Walk, kind: RecordKind) -> Walk
    requires ready { Ready text.now w.cursor w.count }
    requires token { IsSome w.cursor.peeked.kind }
    requires nameless { eqb (word_of kind) 6 ≡ false }
    ensures walk { result ≡ emit text.now old.now w (leaf (word_of kind) (next_span text.now (place w)) ∷ []) (next_span text.now (place w)) }
    ensures stored { out.new ≡ stored out.old w (leaf (word_of kind) (next_span text.now (place w)) ∷ []) }
{
    w.enter(text).end(old, out, w.begin(kind))
}

// The cursor behind the comments from here on.
pub fn ahead(text: &[u8], c: Cursor) -> Cursor
    requires { Ready text.now c 0 }
    ensures { result ≡ cursor_at text.now (end_of (run text.now 7 (place_of c))) }
{
    let mut d = c;
    while next_is(d, TokenKind::Comment) {
        d = d.next(text);
    }
    d
}

// Does an inside end here, after its comments?
#[inline(always)]
pub fn ends(text: &[u8], w: Walk) -> bool
    requires { Ready text.now w.cursor w.count }
    ensures { result ≡ stops text.now (place w) }
{
    closes(ahead(text, w.cursor).peek().kind)
}

// An inside ends at a closing token, and at the text's end.
#[tactic(auto, unfolding(crate::specs::Walk::closes))]
fn closes(kind: Option<TokenKind>) -> bool
    ensures { result ≡ closes (code_of kind) }
{
    matches!(
        kind,
        None | Some(TokenKind::CloseList)
            | Some(TokenKind::CloseBrace)
            | Some(TokenKind::CloseParen)
    )
}

// Behind a suffix comment, if one stands here (parse_suffix_comment).
#[inline(always)]
pub fn suffix_end(text: &[u8], c: Cursor) -> Cursor
    requires { Ready text.now c 0 }
    ensures { result ≡ cursor_at text.now (suffix_end text.now (place_of c)) }
{
    if !next_is(c, TokenKind::Comment) {
        return c;
    }
    if line_feed(text, c.end, c.peek().start) {
        return c;
    }
    c.next(text)
}

// The record of a suffix comment: one was read, if the last token ends behind the value.
#[inline(always)]
pub fn tail(old: &[u32], out: &mut [u32], v: Past) -> Walk
    requires few { v.walk.count ≤ 65536 }
    requires order { v.walk.cursor.start ≤ v.walk.cursor.end }
    requires short { v.walk.cursor.end ≤ 65535 }
    ensures walk { result ≡ tailed old.now v.walk (tail_r v.from (place v.walk)) }
    ensures stored { out.new ≡ stored out.old v.walk (tail_r v.from (place v.walk)) }
{
    let w = v.walk;
    if w.cursor.end <= v.from {
        return w;
    }
    let begun = Begun {
        kind: RecordKind::SuffixComment,
        base: w.count,
        start: w.cursor.start,
        name: 0,
    };
    let d = Walk {
        count: w.count + 1,
        ..w
    };
    d.end(old, out, begun)
}

// After a value: a comma looks for the suffix comment anew.
#[inline(always)]
pub fn settle(text: &[u8], old: &[u32], out: &mut [u32], v: Past) -> Walk
    requires { Ready text.now v.walk.cursor v.walk.count }
    ensures walk { result ≡ ran text.now old.now v.walk (settled_r text.now (place v.walk) v.from) }
    ensures stored { Stored out.old v.walk (settled_r text.now (place v.walk) v.from) out.new }
{
    if !next_is(v.walk.cursor, TokenKind::Comma) {
        return tail(old, out, v);
    }
    let d = v.walk.skip(text);
    let walk = d.at(suffix_end(text, d.cursor));
    tail(
        old,
        out,
        Past {
            walk,
            from: d.cursor.end,
        },
    )
}
