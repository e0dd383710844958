// Taking the quotes off, and showing the value.
ghost use Rattle.std.specs.Prelude.{◌≡◌, length, ◌≤◌, leb, ◌+◌};
ghost use Rattle.eon_spec.specs.Unquote.{unquote_chars};
ghost use Rattle.eon_spec.specs.Calls.{after, is_part, opening, outcome_of, unquote_call, show_call, shown_place, pick};
ghost use Rattle.eon_unescape.specs.Modes.{reads_by};
ghost use Rattle.eon_unescape.specs.Views.{kept, Formed};
ghost use Rattle.eon_strings.specs.Views.{outcome_at_start, placed_call, scratch_call};

use crate::marks::{Contents, in_quotes};
use eon_spec::{Part, Reason, Refusal, Which};
use eon_utf8::Text;

// The value of a quoted text, without its quotes and escapes.
#[tactic(auto, using(crate::proofs::Whole::call_refused, crate::proofs::Whole::call_good))]
pub fn unescape_and_unquote(quoted: &[u8], scratch: &mut [u8]) -> Result<Part, Refusal>
    ensures { after (outcome_of result) scratch.new ≡ unquote_call quoted.now scratch.old }
{
    at_start(placed(Text::of(quoted)?, scratch))
}

// A refusal of a quoted text names its beginning.
fn at_start(value: Result<Part, Reason>) -> Result<Part, Refusal>
    ensures { outcome_of result ≡ outcome_at_start value }
{
    value.map_err(|reason| Refusal::new(reason, 0))
}

// The value is a part of the quoted slice, as long as what stands between the quotes, or is written to the scratch.
fn placed(text: Text, scratch: &mut [u8]) -> Result<Part, Reason>
    ensures { after (outcome_at_start result) scratch.new ≡ placed_call text.entry.str.now scratch.old (unquote_chars (kept text.entry.str.now)) }
{
    let quoted = text.bytes();
    let contents = in_quotes(quoted)?;
    if is_part(quoted) {
        return Ok(Part {
            which: Which::Quoted,
            start: opening_len(quoted),
            len: contents.text.len(),
        });
    }
    unescaped(contents, scratch)
}

// A value that is no part of the quoted slice is measured, and then written, by one function: in an empty memory it measures.
#[tactic(auto, using(crate::proofs::Whole::measured_fault, crate::proofs::Whole::measured_room, crate::proofs::Whole::is_written))]
fn unescaped(contents: Contents<'_>, scratch: &mut [u8]) -> Result<Part, Reason>
    requires short { length contents.text.now ≤ 65535 }
    requires formed { Formed contents.text.now }
    ensures { after (outcome_at_start result) scratch.new ≡ scratch_call scratch.old (reads_by contents.entry.mode (kept contents.entry.text.now)) }
{
    let len = eon_unescape::unescape(contents.text, contents.mode, &mut [])?;
    if scratch.len() < len {
        return Err(Reason::NoSpace);
    }
    let len = eon_unescape::unescape(contents.text, contents.mode, scratch)?;
    Ok(Part {
        which: Which::Scratch,
        start: 0,
        len,
    })
}

// The value of a quoted text is a part of it: no carriage return, and literal or without a backslash.
fn is_part(text: &[u8]) -> bool
    ensures { result ≡ is_part text.now }
{
    !text.contains(&b'\r') && (text.starts_with(b"'") || !text.contains(&b'\\'))
}

// The length of the opening mark, and of the line feed that `'''` drops.
fn opening_len(text: &[u8]) -> usize
    ensures { result ≡ opening text.now }
{
    if text.starts_with(b"'''\n") {
        4
    } else if text.starts_with(b"'''") || text.starts_with(b"\"\"\"") {
        3
    } else {
        1
    }
}

// The part named, or the empty beginning of the quoted slice.
#[tactic(auto, unfolding(eon_spec::specs::Calls::show_call, eon_spec::specs::Calls::shown_place))]
pub fn show<'a>(quoted: &'a [u8], scratch: &'a [u8], part: Part) -> &'a [u8]
    ensures shown { result.now ≡ show_call part quoted.now scratch.now }
    ensures stands { result.ref_ptr ≡ shown_place part quoted.now scratch.now quoted.entry.ref_ptr scratch.entry.ref_ptr }
{
    let bytes = named(part.which, quoted, scratch);
    if lies_within(bytes.len(), part) {
        return &bytes[part.start..part.start + part.len];
    }
    &quoted[..0]
}

fn named<'a>(which: Which, quoted: &'a [u8], scratch: &'a [u8]) -> &'a [u8]
    ensures bytes { result.now ≡ pick which quoted.now scratch.now }
    ensures place { result.ref_ptr ≡ pick which quoted.entry.ref_ptr scratch.entry.ref_ptr }
{
    match which {
        Which::Quoted => quoted,
        Which::Scratch => scratch,
    }
}

// No sum of the two, which might not fit into a usize.
fn lies_within(total: usize, part: Part) -> bool
    ensures { result ≡ leb (part.start + part.len) total }
{
    part.start <= total && part.len <= total - part.start
}
