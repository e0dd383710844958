// The readers, one cycle: each compares the records that it reads with an old table, and stores them in another. Either may be empty.
// A level of nesting is `nested`: what else a level calls goes into it, and its frame then holds few walks or records twice, so that deep
// texts need little stack.
//
// What each asks, `Ready`, is a relation of the text, the cursor and the count, and no invariant of `Walk`: the definitions say which walk
// a reader leaves, as a record of its fields, and only then is that walk known to be ready.
//
// The loops are `while`s: a turn ends where the reader of an item leaves off, which only it knows.
ghost use Rattle.std.specs.Prelude.{◌≡◌, ◌-◌, length, Some, IsSome};
ghost use Rattle.eon_spec.specs.Token.{kind_number};
ghost use Rattle.eon_spec.specs.declared.token_kind.TokenKind.TheVariants.{Identifier, Number};
ghost use Rattle.eon_token.specs.Placed.{code_of};
ghost use Rattle.eon_token.specs.Place.{span};
ghost use Rattle.eon_parse.specs.Walk.{reason_of, refused_at, expect, one, two, inside, string_at, bare_at, reader, below};
ghost use Rattle.eon_parse.specs.Answer.{Ready, place, stop_of, bared, counted, expected, closed_at, Stored, StoredItem, StoredEnd, Open, moved};
ghost use Rattle.eon_parse.specs.Tops.{no_value};

use crate::comments::{comments, ends, leaf, settle, suffix_end, tail};
use crate::walk::{Begun, Past, Stop, Walk, next_is};
use eon_spec::{Reason, RecordKind, Refusal, TokenKind};

// A value of a list, with the comments around it.
#[inline(always)]
#[cycle(reading)]
pub fn one(text: &[u8], old: &[u32], out: &mut [u32], w: Walk, depth: usize) -> Result<Walk, Stop>
    requires { Ready text.now w.cursor w.count }
    ensures walk { result ≡ bared text.now old.now w (one text.now (below depth text.now) (place w)) }
    ensures stored { Stored out.old w (one text.now (below depth text.now) (place w)) out.new }
{
    let d = comments(text, old, out, w, RecordKind::PrefixComment);
    let v = value(text, old, out, d, less(depth))?;
    Ok(settle(text, old, out, v))
}

// A key and its value, with the comments around them.
#[inline(always)]
#[cycle(reading)]
fn two(text: &[u8], old: &[u32], out: &mut [u32], w: Walk, depth: usize) -> Result<Walk, Stop>
    requires { Ready text.now w.cursor w.count }
    ensures walk { result ≡ bared text.now old.now w (two text.now (below depth text.now) (place w)) }
    ensures stored { Stored out.old w (two text.now (below depth text.now) (place w)) out.new }
{
    let d = comments(text, old, out, w, RecordKind::PrefixComment);
    let k = value(text, old, out, d, less(depth))?;
    let x = must(text, tail(old, out, k), TokenKind::Colon)?;
    let v = value(text, old, out, x, less(depth))?;
    Ok(settle(text, old, out, v))
}

// The inside of a list or a variant (parse_list_contents): values up to a closing token, and the comments before it.
#[inline(always)]
#[cycle(reading)]
pub fn list(text: &[u8], old: &[u32], out: &mut [u32], w: Walk, depth: usize) -> Result<Walk, Stop>
    requires { Ready text.now w.cursor w.count }
    ensures walk { result ≡ bared text.now old.now w (inside text.now (one text.now (below depth text.now)) (place w)) }
    ensures stored { Stored out.old w (inside text.now (one text.now (below depth text.now)) (place w)) out.new }
{
    let mut d = w;
    while !ends(text, d) {
        d = one(text, old, out, d, depth)?;
    }
    Ok(comments(text, old, out, d, RecordKind::ClosingComment))
}

// The inside of a map (parse_map_contents): keys and values. As `list` but for the reader of an item: that is of the same cycle, so it can
// be no argument of one function for both, whose contract would have to say of a closure what the cycle is still to show.
#[inline(always)]
#[cycle(reading)]
pub fn map(text: &[u8], old: &[u32], out: &mut [u32], w: Walk, depth: usize) -> Result<Walk, Stop>
    requires { Ready text.now w.cursor w.count }
    ensures walk { result ≡ bared text.now old.now w (inside text.now (two text.now (below depth text.now)) (place w)) }
    ensures stored { Stored out.old w (inside text.now (two text.now (below depth text.now)) (place w)) out.new }
{
    let mut d = w;
    while !ends(text, d) {
        d = two(text, old, out, d, depth)?;
    }
    Ok(comments(text, old, out, d, RecordKind::ClosingComment))
}

// A value with its comments (parse_token_tree). Its suffix comment is no record yet: a comma may replace it.
#[inline(always)]
#[cycle(reading)]
fn value(text: &[u8], old: &[u32], out: &mut [u32], w: Walk, depth: usize) -> Result<Past, Stop>
    requires { Ready text.now w.cursor w.count }
    ensures walk { result ≡ counted text.now old.now w (reader depth text.now (place w)) }
    ensures stored { StoredItem out.old w (reader depth text.now (place w)) out.new }
{
    if depth == 0 {
        return Err(Stop::behind(Reason::TooDeep, w.cursor));
    }
    let d = comments(text, old, out, w, RecordKind::PrefixComment);
    let x = core(text, old, out, d, depth - 1)?;
    let walk = x.at(suffix_end(text, x.cursor));
    Ok(Past {
        walk,
        from: x.cursor.end,
    })
}

// A value behind its prefix comments. An identifier or a number is read here, so that it costs no call with a large frame.
#[inline(always)]
#[cycle(reading)]
fn core(text: &[u8], old: &[u32], out: &mut [u32], w: Walk, depth: usize) -> Result<Walk, Stop>
    requires { Ready text.now w.cursor w.count }
    ensures walk { result ≡ bared text.now old.now w (bare_at text.now (below depth text.now) (place w)) }
    ensures stored { Stored out.old w (bare_at text.now (below depth text.now) (place w)) out.new }
{
    match w.kind() {
        Some(TokenKind::Identifier) => Ok(leaf(text, old, out, w, RecordKind::Identifier)),
        Some(TokenKind::Number) => Ok(leaf(text, old, out, w, RecordKind::Number)),
        _ => nested(text, old, out, w, depth),
    }
}

// A list, a map, a string or a variant.
#[inline(never)]
#[cycle(reading)]
fn nested(text: &[u8], old: &[u32], out: &mut [u32], w: Walk, depth: usize) -> Result<Walk, Stop>
    requires ready { Ready text.now w.cursor w.count }
    requires no_name { w.cursor.peeked.kind ≡ Some Identifier → ⊥ }
    requires no_number { w.cursor.peeked.kind ≡ Some Number → ⊥ }
    ensures walk { result ≡ bared text.now old.now w (bare_at text.now (below depth text.now) (place w)) }
    ensures stored { Stored out.old w (bare_at text.now (below depth text.now) (place w)) out.new }
{
    let Some(kind) = w.kind() else {
        return Err(no_value(text, w));
    };
    match kind {
        TokenKind::OpenList => {
            let i = list(text, old, out, w.enter(text), depth)?;
            close(
                text,
                old,
                out,
                i,
                TokenKind::CloseList,
                w.begin(RecordKind::List),
            )
        }
        TokenKind::OpenBrace => {
            let i = map(text, old, out, w.enter(text), depth)?;
            close(
                text,
                old,
                out,
                i,
                TokenKind::CloseBrace,
                w.begin(RecordKind::Map),
            )
        }
        TokenKind::DoubleQuotedString
        | TokenKind::SingleQuotedString
        | TokenKind::MultilineBasicString
        | TokenKind::MultilineLiteralString => string(text, old, out, w, depth),
        _ => Err(no_value(text, w)),
    }
}

// A string, or the name of a variant.
#[inline(always)]
#[cycle(reading)]
fn string(text: &[u8], old: &[u32], out: &mut [u32], w: Walk, depth: usize) -> Result<Walk, Stop>
    requires ready { Ready text.now w.cursor w.count }
    requires token { IsSome w.cursor.peeked.kind }
    ensures walk { result ≡ bared text.now old.now w (string_at text.now (below depth text.now) (place w)) }
    ensures stored { Stored out.old w (string_at text.now (below depth text.now) (place w)) out.new }
{
    let d = w.enter(text);
    if !next_is(d.cursor, TokenKind::OpenParen) {
        return Ok(d.end(old, out, w.begin(RecordKind::String)));
    }
    let i = list(text, old, out, d.skip(text), depth)?;
    let begun = Begun {
        name: d.cursor.end,
        ..w.begin(RecordKind::Variant)
    };
    close(text, old, out, i, TokenKind::CloseParen, begun)
}

// A container's end: the token that closes it, and then its record.
#[inline(always)]
fn close(
    text: &[u8],
    old: &[u32],
    out: &mut [u32],
    w: Walk,
    k: TokenKind,
    begun: Begun,
) -> Result<Walk, Stop>
    requires ready { Ready text.now w.cursor w.count }
    requires begun { Open w begun }
    ensures walk { result ≡ closed_at text.now old.now w (expect text.now k (place w)) begun }
    ensures stored { StoredEnd text.now out.old w (expect text.now k (place w)) begun out.new }
{
    let x = must(text, w, k)?;
    Ok(x.end(old, out, begun))
}

// The next token must be of a kind (consume_token).
#[inline(always)]
fn must(text: &[u8], w: Walk, k: TokenKind) -> Result<Walk, Stop>
    requires { Ready text.now w.cursor w.count }
    ensures { result ≡ expected text.now w (expect text.now k (place w)) }
{
    let t = w.cursor.peek();
    match t.kind {
        None => Err(Stop::behind(Reason::CutOff { expected: k }, w.cursor)),
        Some(TokenKind::Invalid) => Err(Stop::at(Reason::Stray, t)),
        Some(found) => {
            if next_is(w.cursor, k) {
                return Ok(w.skip(text));
            }
            Err(Stop::at(Reason::Mismatch { expected: k, found }, t))
        }
    }
}

// The refusal of a token that begins no value.
#[inline(always)]
fn no_value(text: &[u8], w: Walk) -> Stop
    ensures { result ≡ no_value (length text.now) w.cursor }
{
    let t = w.cursor.peek();
    match t.kind {
        None => Stop {
            refusal: Refusal::new(Reason::MissingValue, text.len()),
            consumed: w.cursor.end,
        },
        Some(kind) => Stop::at(reason_of(kind), t),
    }
}

// Why a token of this kind begins no value.
#[tactic(auto, unfolding(crate::specs::Walk::reason_of))]
fn reason_of(kind: TokenKind) -> Reason
    ensures { result ≡ reason_of (kind_number kind) }
{
    match kind {
        TokenKind::Invalid => Reason::Stray,
        TokenKind::CloseList => Reason::UnbalancedList,
        TokenKind::CloseBrace => Reason::UnbalancedBrace,
        TokenKind::CloseParen => Reason::UnbalancedParen,
        TokenKind::OpenParen => Reason::Nameless,
        _ => Reason::NoValue,
    }
}

// One step of depth less, and never below 0.
#[inline(always)]
fn less(depth: usize) -> usize
    ensures { result ≡ depth - 1 }
{
    depth.saturating_sub(1)
}
