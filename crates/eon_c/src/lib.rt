// The public calls for programs in other languages: numbers and slices alone, and the answer in eight words that the caller lends.
#![tactic(auto)]

ghost use Rattle.std.specs.Prelude.{◌≡◌, length};
ghost use Rattle.eon_spec.specs.Unquote.{is_valid_identifier};
ghost use Rattle.eon_spec.specs.Refused.{refusal_of};
ghost use Rattle.eon_spec.specs.Calls.{after, outcome_of, read_call, format_call, reformat_call, compare_call, unquote_call, part_of, show_call};
ghost use Rattle.eon_spec.specs.Pick.{record_at_call, records_in_call};
ghost use Rattle.eon_spec.specs.Lookup.{lookup_call, steps_of};
ghost use Rattle.eon_c.specs.Words.{refused_words, done_words, count_words, truth_words, slice_number, which_of, part_words, shown_words, options_of, LentAnswers, found_or};

use eon_spec::token_kind::number_or_zero;
use eon_spec::{FormatOptions, Found, Hit, PATHS_MAX, Part, Refusal, Setting, Which};

fn refused_words(r: Refusal) -> [u64; 8]
    ensures { result ≡ refused_words (refusal_of r) }
{
    [
        u64::from(r.reason.number()),
        r.start as u64,
        r.end as u64,
        u64::from(number_or_zero(r.reason.expected())),
        u64::from(number_or_zero(r.reason.found())),
        0,
        0,
        0,
    ]
}

// The words that an answer does not use are 0, and a slice is a number, as include/eon.h promises.
fn done_words(count: u64, slice: u64, start: u64) -> [u64; 8]
    ensures { result ≡ done_words count slice start }
{
    [0, 0, 0, 0, 0, count, slice, start]
}

fn count_words(a: Result<usize, Refusal>) -> [u64; 8]
    ensures { result ≡ count_words (outcome_of a) }
{
    match a {
        Ok(n) => done_words(n as u64, 0, 0),
        Err(r) => refused_words(r),
    }
}

fn truth_words(c: Result<bool, Refusal>) -> [u64; 8]
    ensures { result ≡ truth_words (outcome_of c) }
{
    count_words(c.map(usize::from))
}

// What a lookup found; what was there, where it is refused.
fn found_or(f: Found, old: [u32; PATHS_MAX]) -> [u32; PATHS_MAX]
    ensures { result ≡ found_or f old }
{
    match f.answer {
        Ok(_) => f.answers,
        Err(_) => old,
    }
}

// C's numbers of the slices stand here and not as a From beside the type, since nobody else counts them.
fn slice_number(which: Which) -> u64
    ensures { result ≡ slice_number which }
{
    which as u64
}

// 0 names the quoted slice, any other number the scratch.
fn which_of(slice: u64) -> Which
    ensures { result ≡ which_of slice }
{
    if slice == 0 {
        Which::Quoted
    } else {
        Which::Scratch
    }
}

fn part_words(u: Result<Part, Refusal>) -> [u64; 8]
    ensures { result ≡ part_words (outcome_of u) }
{
    match u {
        Ok(part) => done_words(part.len as u64, slice_number(part.which), part.start as u64),
        Err(r) => refused_words(r),
    }
}

fn options_of(
    indentation: &[u8],
    newline: &[u8],
    space: &[u8],
    separator: &[u8],
    braces: bool,
) -> FormatOptions
    ensures { result ≡ options_of indentation.now newline.now space.now separator.now braces }
{
    FormatOptions {
        indentation: Setting::new(indentation),
        newline: Setting::new(newline),
        space_before_suffix_comment: Setting::new(space),
        key_value_separator: Setting::new(separator),
        always_include_outer_braces: braces,
    }
}

#[unsafe(no_mangle)]
pub extern "C" fn eon_read(text: &[u8], table: &mut [u32], answer: &mut [u64; 8])
    ensures answer_after { answer.new ≡ count_words (read_call text.now table.old).answer }
    ensures table_after { table.new ≡ (read_call text.now table.old).memory }
{
    *answer = count_words(eon_syntax::read(text, table));
}

#[unsafe(no_mangle)]
pub extern "C" fn eon_format(
    text: &[u8],
    table: &[u32],
    indentation: &[u8],
    newline: &[u8],
    space: &[u8],
    separator: &[u8],
    braces: bool,
    out: &mut [u8],
    answer: &mut [u64; 8],
)
    ensures answer_after { answer.new ≡ count_words (format_call text.now table.now (options_of indentation.now newline.now space.now separator.now braces) out.old).answer }
    ensures out_after { out.new ≡ (format_call text.now table.now (options_of indentation.now newline.now space.now separator.now braces) out.old).memory }
{
    let options = options_of(indentation, newline, space, separator, braces);
    *answer = count_words(eon_syntax::format(text, table, options, out));
}

#[unsafe(no_mangle)]
pub extern "C" fn eon_reformat(
    text: &[u8],
    table: &mut [u32],
    indentation: &[u8],
    newline: &[u8],
    space: &[u8],
    separator: &[u8],
    braces: bool,
    out: &mut [u8],
    answer: &mut [u64; 8],
)
    ensures answer_after { answer.new ≡ count_words (reformat_call text.now table.old (options_of indentation.now newline.now space.now separator.now braces) out.old).answer }
    ensures table_after { table.new ≡ (reformat_call text.now table.old (options_of indentation.now newline.now space.now separator.now braces) out.old).table }
    ensures out_after { out.new ≡ (reformat_call text.now table.old (options_of indentation.now newline.now space.now separator.now braces) out.old).out }
{
    let options = options_of(indentation, newline, space, separator, braces);
    *answer = count_words(eon_syntax::reformat(text, table, options, out));
}

#[unsafe(no_mangle)]
pub extern "C" fn eon_compare(
    text1: &[u8],
    table1: &[u32],
    text2: &[u8],
    table2: &[u32],
    answer: &mut [u64; 8],
)
    ensures { answer.new ≡ truth_words (compare_call text1.now table1.now text2.now table2.now) }
{
    *answer = truth_words(eon_syntax::compare(text1, table1, text2, table2));
}

// A usize has 64 bits: C's uint64_t.
#[unsafe(no_mangle)]
pub extern "C" fn eon_record_at(text: &[u8], table: &[u32], offset: usize, answer: &mut [u64; 8])
    ensures { answer.new ≡ count_words (record_at_call text.now table.now offset) }
{
    *answer = count_words(eon_syntax::record_at(text, table, offset));
}

#[unsafe(no_mangle)]
pub extern "C" fn eon_records_in(
    text: &[u8],
    table: &[u32],
    from: usize,
    to: usize,
    hits: &mut [Hit],
    answer: &mut [u64; 8],
)
    ensures answer_after { answer.new ≡ count_words (records_in_call text.now table.now from to hits.old).answer }
    ensures hits_after { hits.new ≡ (records_in_call text.now table.now from to hits.old).memory }
{
    *answer = count_words(eon_syntax::records_in(text, table, from, to, hits));
}

#[unsafe(no_mangle)]
pub extern "C" fn eon_lookup(
    text: &[u8],
    table: &[u32],
    paths: &[u8],
    paths_table: &[u32],
    answers: &mut [u32; PATHS_MAX],
    answer: &mut [u64; 8],
)
    ensures answer_after { answer.new ≡ count_words (steps_of (lookup_call text.now table.now paths.now paths_table.now)) }
    ensures lent_answers { LentAnswers (lookup_call text.now table.now paths.now paths_table.now) answers.old answers.new }
{
    let found = eon_syntax::lookup(text, table, paths, paths_table);
    *answers = found_or(found, *answers);
    *answer = count_words(found.answer);
}

#[unsafe(no_mangle)]
pub extern "C" fn eon_unquote(quoted: &[u8], scratch: &mut [u8], answer: &mut [u64; 8])
    ensures answer_after { answer.new ≡ part_words (unquote_call quoted.now scratch.old).answer }
    ensures scratch_after { scratch.new ≡ (unquote_call quoted.now scratch.old).memory }
{
    *answer = part_words(eon_syntax::unescape_and_unquote(quoted, scratch));
}

// Of the part that is shown C is told the place: an exported function hands back no reference.
fn shown_words(shown: usize, slice: u64, start: usize) -> [u64; 8]
    ensures { result ≡ shown_words shown (which_of slice) start }
{
    if shown == 0 {
        return done_words(0, 0, 0);
    }
    done_words(shown as u64, slice_number(which_of(slice)), start as u64)
}

#[unsafe(no_mangle)]
pub extern "C" fn eon_show<'a>(
    quoted: &'a [u8],
    scratch: &'a [u8],
    slice: u64,
    start: usize,
    len: usize,
    answer: &mut [u64; 8],
)
    ensures { answer.new ≡ shown_words (length (show_call (part_of (which_of slice) start len) quoted.now scratch.now)) (which_of slice) start }
{
    let which = which_of(slice);
    let shown = eon_syntax::show(quoted, scratch, Part { which, start, len });
    *answer = shown_words(shown.len(), slice, start);
}

#[unsafe(no_mangle)]
pub extern "C" fn eon_is_valid_identifier(text: &[u8]) -> bool
    ensures { result ≡ is_valid_identifier text.now }
{
    eon_syntax::is_valid_identifier(text)
}
