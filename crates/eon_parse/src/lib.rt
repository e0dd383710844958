// The reader: from tokens to the record table.
#![tactic(auto)]

ghost use Rattle.std.specs.Prelude.{◌≡◌, ◌+◌, ◌*◌, ◌≤◌, length};
ghost use Rattle.eon_spec.specs.Calls.{after, outcome_of, then, read_text, read_call, read_finished};
ghost use Rattle.eon_parse.specs.Call.{count_of};

use eon_spec::{RECORD_WORDS, Reason, Refusal};
use eon_utf8::Text;
use readers::one;
use top::{DEPTH, Form, as_list, as_map, start, whole};

mod comments;
mod readers;
mod top;
mod walk;
mod words;

// Reads a text into the table.
#[tactic(auto, using(crate::proofs::Calls::read_refused))]
pub fn read(text: &[u8], table: &mut [u32]) -> Result<usize, Refusal>
    ensures { after (outcome_of result) table.new ≡ read_call text.now table.old }
{
    read_checked(Text::of(text)?, table)
}

// Is the table the text's? Then how many records it has.
#[tactic(auto, using(crate::proofs::Calls::finished_refused))]
pub fn finished(text: &[u8], table: &[u32]) -> Result<usize, Refusal>
    ensures { outcome_of result ≡ then (read_finished text.now table.now) count_of }
{
    finished_checked(Text::of(text)?, table)
}

// Reads a text into a table that has room for any text of its length, in one walk. A refusal leaves anything there.
#[tactic(auto, using(crate::proofs::Calls::text_refused, crate::proofs::Calls::once_refused))]
pub fn read_once(text: &[u8], table: &mut [u32]) -> Result<usize, Refusal>
    requires { length text.now ≤ 65535 → 5 * (length text.now + 1) ≤ length table.old }
    ensures count { outcome_of result ≡ then (read_text text.now) count_of }
    ensures table { read_finished text.now table.new ≡ read_text text.now }
{
    once_checked(Text::of(text)?, table)
}

// The first walk finds out how the text is read, and whether there is room. An empty table is one that agrees with nothing and takes
// nothing, so that one cycle of readers counts, compares and stores.
fn read_checked(text: Text, table: &mut [u32]) -> Result<usize, Refusal>
    ensures { after (outcome_of result) table.new ≡ read_call text.entry.str.now table.old }
{
    let w = start(text);
    let text = text.bytes();
    let top = whole(text, &[], &mut [], w)?;
    let count = top.count;
    if table.len() < RECORD_WORDS * count {
        return Err(Refusal::new(Reason::NoSpace, 0));
    }
    // Read again by the reader of its form, now to store: which one it is, is what the first walk found out.
    let _ = match top.form {
        Form::Map => as_map(text, &[], table, w),
        Form::Single => one(text, &[], table, w, DEPTH),
        Form::Several => as_list(text, &[], table, w),
    };
    Ok(count)
}

#[tactic(auto, using(crate::proofs::Calls::finished_no, crate::proofs::Calls::finished_by))]
fn finished_checked(text: Text, table: &[u32]) -> Result<usize, Refusal>
    ensures { outcome_of result ≡ then (read_finished text.entry.str.now table.now) count_of }
{
    let top = whole(text.bytes(), table, &mut [], start(text))?;
    if top.same {
        return Ok(top.count);
    }
    Err(Refusal::new(Reason::Stale, 0))
}

#[tactic(auto, using(crate::proofs::Calls::once_no, crate::proofs::Calls::once_yes))]
fn once_checked(text: Text, table: &mut [u32]) -> Result<usize, Refusal>
    requires { 5 * (length text.str.now + 1) ≤ length table.old }
    ensures count { outcome_of result ≡ then (read_text text.entry.str.now) count_of }
    ensures table { read_finished text.entry.str.now table.new ≡ read_text text.entry.str.now }
{
    let top = whole(text.bytes(), &[], table, start(text))?;
    Ok(top.count)
}
