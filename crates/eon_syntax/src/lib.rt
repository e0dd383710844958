// The public calls. Each takes any bytes, tables and settings; each contract is an equation with a definition of eon_spec, but that a
// lookup may name any of several values that a path reaches (`IsLookup`).
#![tactic(auto)]

ghost use Rattle.std.specs.Prelude.{◌≡◌};
ghost use Rattle.eon_spec.specs.Unquote.{is_valid_identifier};
ghost use Rattle.eon_spec.specs.Calls.{after, outcome_of, read_call, format_call, after_both, reformat_call, compare_call, unquote_call, show_call, shown_place};
ghost use Rattle.eon_spec.specs.Pick.{record_at_call, records_in_call};
ghost use Rattle.eon_spec.specs.Lookup.{lookup_call, IsLookup};

use eon_spec::{FormatOptions, Found, Hit, Part, Reason, Refusal};
use eon_table::Sheet;

// Reads a text into the table, five words a record, and answers how many records it has.
pub fn read(text: &[u8], table: &mut [u32]) -> Result<usize, Refusal>
    ensures { after (outcome_of result) table.new ≡ read_call text.now table.old }
{
    eon_parse::read(text, table)
}

// Lays a text out by its finished table, and answers how many bytes it wrote.
pub fn format(
    text: &[u8],
    table: &[u32],
    options: FormatOptions,
    out: &mut [u8],
) -> Result<usize, Refusal>
    ensures { after (outcome_of result) out.new ≡ format_call text.now table.now options out.old }
{
    if !eon_settings::good_settings(&options) {
        return Err(Refusal::new(Reason::BadSettings, 0));
    }
    let n = eon_parse::finished(text, table)?;
    eon_format::format_finished(Sheet { text, table }, &options, n, out)
}

// Reads a text and lays it out. On success the table is finished and the answer is how many bytes were written; a refusal leaves both
// memories as they were.
pub fn reformat(
    text: &[u8],
    table: &mut [u32],
    options: FormatOptions,
    out: &mut [u8],
) -> Result<usize, Refusal>
    ensures { after_both (outcome_of result) table.new out.new ≡ reformat_call text.now table.old options out.old }
{
    eon_reformat::reformat(text, table, &options, out)
}

// Are the trees of two texts with their finished tables equal, spans aside?
pub fn compare(text1: &[u8], table1: &[u32], text2: &[u8], table2: &[u32]) -> Result<bool, Refusal>
    ensures { outcome_of result ≡ compare_call text1.now table1.now text2.now table2.now }
{
    eon_compare::compare(text1, table1, text2, table2)
}

// The number of the record at a byte offset: the highest that holds the offset, or else the nearest byte that a record covers.
pub fn record_at(text: &[u8], table: &[u32], offset: usize) -> Result<usize, Refusal>
    ensures { outcome_of result ≡ record_at_call text.now table.now offset }
{
    eon_pick::record_at(text, table, offset)
}

// Lists the records that share a byte with a range, its end not counted, and answers how many they are.
pub fn records_in(
    text: &[u8],
    table: &[u32],
    from: usize,
    to: usize,
    hits: &mut [Hit],
) -> Result<usize, Refusal>
    ensures { after (outcome_of result) hits.new ≡ records_in_call text.now table.now from to hits.old }
{
    eon_pick::records_in(text, table, from, to, hits)
}

// Looks many paths up in one walk over an event, each text with its finished table: how many steps it took, and for each path the number of
// some value that it reaches.
pub fn lookup(text: &[u8], table: &[u32], paths: &[u8], paths_table: &[u32]) -> Found
    ensures { IsLookup (lookup_call text.now table.now paths.now paths_table.now) result }
{
    eon_lookup::lookup(text, table, paths, paths_table)
}

// Does a string without its quotes need none? `[a-zA-Z_][a-zA-Z0-9_]*` and no keyword.
pub fn is_valid_identifier(text: &[u8]) -> bool
    ensures { result ≡ is_valid_identifier text.now }
{
    eon_strings::is_valid_identifier(text)
}

// The value of a quoted string: where it stands, in the quoted slice itself or written to the scratch.
pub fn unescape_and_unquote(quoted: &[u8], scratch: &mut [u8]) -> Result<Part, Refusal>
    ensures { after (outcome_of result) scratch.new ≡ unquote_call quoted.now scratch.old }
{
    eon_strings::unescape_and_unquote(quoted, scratch)
}

// The part that unquoting named, where it stands; the empty beginning of the quoted slice if it reaches beyond the slice named.
pub fn show<'a>(quoted: &'a [u8], scratch: &'a [u8], part: Part) -> &'a [u8]
    ensures shown { result.now ≡ show_call part quoted.now scratch.now }
    ensures stands { result.ref_ptr ≡ shown_place part quoted.now scratch.now quoted.entry.ref_ptr scratch.entry.ref_ptr }
{
    eon_strings::show(quoted, scratch, part)
}
