// Values on one line: which are (format.rs, should_format_values_on_one_line), and how they are written.
#![tactic(auto)]

ghost use Rattle.std.specs.Prelude.{◌≡◌, [], ◌∷◌, ◌++◌, ℕ, ◌+◌, ◌-◌, ◌^◌, ◌<◌, ◌≤◌, length, true};
ghost use Rattle.eon_spec.specs.Tree.{TokenValue};
ghost use Rattle.eon_spec.specs.Layout.{Settings, value};
ghost use Rattle.eon_spec.specs.Base.{elem};
ghost use Rattle.eon_one_line.specs.Flat.{simple_at, width_at, one_line_at, flat_at, plain_at, plain_line};
ghost use Rattle.eon_table.specs.Words.{word};
ghost use Rattle.eon_table.specs.TreeAt.{ValueAt, SomeValue};

use eon_put::Sink;
use eon_spec::RecordKind;
use eon_table::Sheet;

// ---- the rule

// The most values on one line, and the width that they stay below.
const VALUES_MAX: usize = 4;

const WIDTH: usize = 60;

fn has_line_feed(text: &[u8]) -> bool
    ensures { result ≡ elem 10 text.now }
{
    text.contains(&b'\n')
}

#[tactic(auto, unfolding(crate::specs::Flat::simple_at))]
fn is_simple(sheet: Sheet, i: usize, end: usize) -> bool
    requires { i < end }
    ensures { result ≡ simple_at sheet.entry.text.now sheet.entry.table.now end i }
{
    !sheet.is(i, RecordKind::PrefixComment)
        && sheet.size(i) == 1
        && !sheet.has_suffix(i + 1, end)
        && !(sheet.is(i, RecordKind::String) && has_line_feed(sheet.text_at(i)))
}

// The estimated width of a value, with the two bytes behind it.
fn width(sheet: Sheet, i: usize) -> usize
    ensures value { result ≡ width_at [] sheet.entry.table.now i }
    ensures sized { result < 2 ^ 32 + 2 }
{
    if sheet.is(i, RecordKind::String) {
        sheet.text_end(i).saturating_sub(sheet.start(i)) + 2
    } else {
        7
    }
}

// should_format_values_on_one_line, with no closing comments: the records from i up to `end`.
#[tactic(auto, unfolding(crate::specs::Flat::one_line_at, crate::specs::Flat::line_at))]
pub fn on_one_line(sheet: Sheet, i: usize, end: usize) -> bool
    requires { i ≤ end }
    ensures { result ≡ one_line_at sheet.entry.text.now sheet.entry.table.now end i }
{
    if VALUES_MAX < end - i {
        return false;
    }
    let mut numbers = true;
    let mut wide = 0;
    for j in i..end {
        if sheet.is(j, RecordKind::ClosingComment) || !is_simple(sheet, j, end) {
            return false;
        }
        numbers &= sheet.is(j, RecordKind::Number);
        wide += width(sheet, j);
    }
    numbers || wide < WIDTH
}

// Whether a list, map or variant with something in it needs no lines.
#[tactic(auto, unfolding(crate::specs::Flat::flat_at))]
pub fn is_flat(sheet: Sheet, i: usize) -> bool
    requires inside { i < length sheet.table.now }
    requires something { 1 < word sheet.table.now i 4 }
    ensures { result ≡ flat_at sheet.entry.text.now sheet.entry.table.now i }
{
    !sheet.is(i, RecordKind::Map) && on_one_line(sheet, i + 1, sheet.behind(i))
}

// ---- the line

// A simple value.
#[tactic(auto, unfolding(crate::specs::Flat::plain_at))]
pub fn put_plain<S: Sink>(sheet: Sheet, i: usize, sink: &mut S)
    ensures { S.puts sink.old (plain_at sheet.entry.text.now sheet.entry.table.now i) sink.new }
{
    if sheet.is(i, RecordKind::List) {
        sink.put_all(b"[]");
    } else if sheet.is(i, RecordKind::Map) {
        sink.put_all(b"{}");
    } else {
        sink.put_all(sheet.text_at(i));
    }
}

// The simple values from record i up to `end`.
fn one_line<S: Sink>(sheet: Sheet, i: usize, end: usize, sink: &mut S)
    ensures { S.puts sink.old (plain_line sheet.entry.text.now sheet.entry.table.now i (end - i)) sink.new }
{
    for j in i..end {
        put_plain(sheet, j, sink);
        if j + 1 < end {
            sink.put_all(b", ");
        }
    }
}

// Simple values between brackets.
fn put_row<S: Sink>(sheet: Sheet, i: usize, end: usize, left: u8, right: u8, sink: &mut S)
    ensures { S.puts sink.old ((left ∷ []) ++ plain_line sheet.entry.text.now sheet.entry.table.now i (end - i) ++ (right ∷ [])) sink.new }
{
    sink.put(left);
    one_line(sheet, i, end, sink);
    sink.put(right);
}

// A list or variant with something in it that needs no lines.
pub fn put_flat<S: Sink>(sheet: Sheet, i: usize, sink: &mut S)
    requires inside { i < length sheet.table.now }
    requires value { SomeValue sheet.text.now sheet.table.now i }
    requires flat { flat_at sheet.text.now sheet.table.now i ≡ true }
    requires something { 1 < word sheet.table.now i 4 }
    ensures { (o : Settings) (n : ℕ) (v : TokenValue) → ValueAt sheet.entry.text.now sheet.entry.table.now i v → S.puts sink.old (value o n v) sink.new }
{
    let end = sheet.behind(i);
    if sheet.is(i, RecordKind::List) {
        put_row(sheet, i + 1, end, b'[', b']', sink);
    } else {
        sink.put_all(sheet.text_at(i));
        put_row(sheet, i + 1, end, b'(', b')', sink);
    }
}
