// Reading and layout in one call. The lent table must stay as it is until the output is known to have room, so the text is read into a
// table of the function's own.
#![tactic(auto)]

ghost use Rattle.std.specs.Prelude.{◌≡◌, true, ◌+◌, ◌*◌, ◌^◌, ◌≤◌, ◌<◌, length};
ghost use Rattle.eon_spec.specs.Tree.{TokenTree};
ghost use Rattle.eon_spec.specs.Records.{tree_records};
ghost use Rattle.eon_spec.specs.Calls.{outcome_of, done, read_finished, good_settings, after_both, reformat_call};

use eon_spec::{FormatOptions, RECORD_WORDS, Reason, Refusal, TEXT_MAX};
use eon_table::Sheet;

// How long a text may be for each frame, which has room for a record more than the text has bytes. How much stack each takes is a promise
// of include/eon.h, so the sizes are told here one by one. The last is the longest text that is read.
const SMALL_TEXT: usize = 2047;

const MEDIUM_TEXT: usize = 16383;

const SMALL_WORDS: usize = RECORD_WORDS * (SMALL_TEXT + 1);

const MEDIUM_WORDS: usize = RECORD_WORDS * (MEDIUM_TEXT + 1);

const LARGE_WORDS: usize = RECORD_WORDS * (TEXT_MAX + 1);

// Reads a text and lays it out. On success the table is finished and the answer is how many bytes were written; a refusal leaves both
// memories as they were. A small text needs no large frame, and pays for clearing a small one only.
pub fn reformat(
    text: &[u8],
    table: &mut [u32],
    options: &FormatOptions,
    out: &mut [u8],
) -> Result<usize, Refusal>
    ensures { after_both (outcome_of result) table.new out.new ≡ reformat_call text.now table.old options.now out.old }
{
    if text.len() <= SMALL_TEXT {
        in_frame::<SMALL_WORDS>(text, table, options, out)
    } else if text.len() <= MEDIUM_TEXT {
        in_frame::<MEDIUM_WORDS>(text, table, options, out)
    } else {
        in_frame::<LARGE_WORDS>(text, table, options, out)
    }
}

// With a table of so many words: a text has at most one record more than bytes, so there is room for it, and one walk reads it. It is not
// unfolded into its caller, so that a shorter text does not pay for the stack of a longer one's frame.
#[inline(never)]
fn in_frame<const WORDS: usize>(
    text: &[u8],
    table: &mut [u32],
    options: &FormatOptions,
    out: &mut [u8],
) -> Result<usize, Refusal>
    requires frame { WORDS < 2 ^ 32 }
    requires room { length text.now ≤ 65535 → 5 * (length text.now + 1) ≤ WORDS }
    ensures { after_both (outcome_of result) table.new out.new ≡ reformat_call text.now table.old options.now out.old }
{
    let mut work = [0u32; WORDS];
    if !eon_settings::good_settings(options) {
        return Err(Refusal::new(Reason::BadSettings, 0));
    }
    let n = eon_parse::read_once(text, &mut work)?;
    lay_out(text, &work, n, table, options, out)
}

// Layout by a finished table of n records, which is copied only once the output is written.
fn lay_out(
    text: &[u8],
    work: &[u32],
    n: usize,
    table: &mut [u32],
    options: &FormatOptions,
    out: &mut [u8],
) -> Result<usize, Refusal>
    requires settings { good_settings options.now ≡ true }
    requires finished { (t : TokenTree) × (read_finished text.now work.now ≡ done t) × (n ≡ length (tree_records t)) }
    ensures { after_both (outcome_of result) table.new out.new ≡ reformat_call text.now table.old options.now out.old }
{
    if table.len() / RECORD_WORDS < n {
        return Err(Refusal::new(Reason::NoSpace, 0));
    }
    let bytes = eon_format::format_finished(Sheet { text, table: work }, options, n, out)?;
    let words = RECORD_WORDS * n;
    table[..words].copy_from_slice(&work[..words]);
    Ok(bytes)
}
