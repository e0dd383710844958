// A whole text: the inside of a map and, if that fails, of a list. One value is no list. `Starts` is `Ready` at the text's start: a
// relation of the text and the walk, and no invariant, as is said in readers.rt.
ghost use Rattle.std.specs.Prelude.{◌≡◌, ◌+◌, true, length, ◌≤◌};
ghost use Rattle.eon_token.specs.Place.{span};
ghost use Rattle.eon_parse.specs.Walk.{one, two, inside, below};
ghost use Rattle.eon_parse.specs.Answer.{bared, Stored};
ghost use Rattle.eon_parse.specs.Top.{top_at, list_by, several_by, shape_whole};
ghost use Rattle.eon_parse.specs.Tops.{Starts, start_of, within, spanning, topped, further_by, ended_by, top_view, Held};

use crate::comments::{ahead, ends};
use crate::readers::{list, map, one};
use crate::walk::{Stop, Walk, refusal_at};
use crate::words::Record;
use eon_spec::{Reason, RecordKind, Refusal};
use eon_token::cursor::Cursor;
use eon_utf8::Text;

// How a whole text is read.
#[derive(Clone, Copy)]
pub enum Form {
    Map,
    Single,
    Several,
}

// A text that is read whole: how, its records' number, and whether the old table begins with them, which is a fact of its own.
#[derive(Clone, Copy)]
pub struct Top {
    pub form: Form,
    pub count: usize,
    pub same: bool,
}

// The most steps of depth.
pub const DEPTH: usize = 128;

// A walk at the text's start. The old table agrees as long as no record differs.
pub fn start(text: Text) -> Walk
    ensures { result ≡ start_of text.entry.str.now true }
{
    Walk {
        cursor: Cursor::new(text.bytes()),
        count: 0,
        same: true,
    }
}

// The text as a map, as a value, or as a list of several (parse_top_str).
pub fn whole(text: &[u8], old: &[u32], out: &mut [u32], w: Walk) -> Result<Top, Refusal>
    requires { Starts text.now w }
    ensures answer { result ≡ top_view old.now w.same (top_at text.now) }
    ensures held { Held (shape_whole (top_at text.now)) out.old out.new }
{
    match as_map(text, old, out, w) {
        Ok(x) => ended(x, Form::Map),
        Err(a) => listed(text, old, out, w, a),
    }
}

// The text as the inside of a map. `as_list` differs in the reader and the kind; one function that takes the reader would say of it, as a
// closure, all that the contracts of `map` and `list` say.
pub fn as_map(text: &[u8], old: &[u32], out: &mut [u32], w: Walk) -> Result<Walk, Stop>
    requires { Starts text.now w }
    ensures walk { result ≡ bared text.now old.now w (topped (length text.now) 5 (inside text.now (two text.now (below 128 text.now)) (span 0 0))) }
    ensures stored { Stored out.old w (topped (length text.now) 5 (inside text.now (two text.now (below 128 text.now)) (span 0 0))) out.new }
{
    let x = map(text, old, out, within(w), DEPTH)?;
    let row = spanning(RecordKind::Map, text.len(), x.count);
    Ok(x.put(old, out, 0, row))
}

// The text as the inside of a list.
pub fn as_list(text: &[u8], old: &[u32], out: &mut [u32], w: Walk) -> Result<Walk, Stop>
    requires { Starts text.now w }
    ensures walk { result ≡ bared text.now old.now w (topped (length text.now) 4 (inside text.now (one text.now (below 128 text.now)) (span 0 0))) }
    ensures stored { Stored out.old w (topped (length text.now) 4 (inside text.now (one text.now (below 128 text.now)) (span 0 0))) out.new }
{
    let x = list(text, old, out, within(w), DEPTH)?;
    let row = spanning(RecordKind::List, text.len(), x.count);
    Ok(x.put(old, out, 0, row))
}

// The text as the inside of a list; `a` is why it is no map.
fn listed(text: &[u8], old: &[u32], out: &mut [u32], w: Walk, a: Stop) -> Result<Top, Refusal>
    requires { Starts text.now w }
    ensures answer { result ≡ top_view old.now w.same (list_by text.now a.refusal a.consumed (one text.now (below 128 text.now) (span 0 0))) }
    ensures held { Held (shape_whole (list_by text.now a.refusal a.consumed (one text.now (below 128 text.now) (span 0 0)))) out.old out.new }
{
    match one(text, old, out, w, DEPTH) {
        Err(b) => Err(a.or_further(b)),
        Ok(y) => {
            if ends(text, y) {
                return ended(y.at(ahead(text, y.cursor)), Form::Single);
            }
            several(text, old, out, w, a)
        }
    }
}

// The text as a list of several values.
fn several(text: &[u8], old: &[u32], out: &mut [u32], w: Walk, a: Stop) -> Result<Top, Refusal>
    requires { Starts text.now w }
    ensures answer { result ≡ top_view old.now w.same (several_by text.now a.refusal a.consumed (inside text.now (one text.now (below 128 text.now)) (span 0 0))) }
    ensures held { Held (shape_whole (several_by text.now a.refusal a.consumed (inside text.now (one text.now (below 128 text.now)) (span 0 0)))) out.old out.new }
{
    match as_list(text, old, out, w) {
        Err(b) => Err(a.or_further(b)),
        Ok(x) => ended(x, Form::Several),
    }
}

// Nothing may follow.
fn ended(x: Walk, form: Form) -> Result<Top, Refusal>
    ensures { result ≡ ended_by x form }
{
    let t = x.cursor.peek();
    if t.kind.is_some() {
        return Err(refusal_at(Reason::Surplus, t));
    }
    Ok(Top {
        form,
        count: x.count,
        same: x.same,
    })
}

impl Stop {
    // The refusal of the try that consumed more; the first's, if neither did.
    fn or_further(self, second: Stop) -> Refusal
        ensures { result ≡ further_by self second }
    {
        if self.consumed < second.consumed {
            return second.refusal;
        }
        self.refusal
    }
}

// Behind the start of a container that spans the text.
fn within(w: Walk) -> Walk
    requires { w.count ≤ 65536 }
    ensures { result ≡ within w }
{
    Walk {
        count: w.count + 1,
        ..w
    }
}

// The record of a container that spans the text.
fn spanning(kind: RecordKind, len: usize, count: usize) -> Record
    requires len { len ≤ 65535 }
    requires count { count ≤ 70000 }
    ensures { result ≡ spanning kind len count }
{
    let len = len as u32;
    Record {
        kind,
        start: 0,
        text_end: len,
        end: len,
        size: count as u32,
    }
}
