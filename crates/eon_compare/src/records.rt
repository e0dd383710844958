// Comparison of two trees, each by its text and its finished table, spans aside.
ghost use Rattle.std.specs.Prelude.{◌≡◌, ◌-◌};
ghost use Rattle.eon_spec.specs.Calls.{outcome_of, compare_call, same_records};
ghost use Rattle.eon_table.specs.Words.{record_of, records_of};
ghost use Rattle.eon_compare.specs.Ranges.{same_record};

use eon_parse::finished;
use eon_spec::Refusal;
use eon_table::Sheet;

// Are the trees of two texts equal? Refused as the first table is, and then as the second.
#[tactic(auto, unfolding(eon_spec::specs::Calls::compare_call))]
pub fn compare(
    text_a: &[u8],
    table_a: &[u32],
    text_b: &[u8],
    table_b: &[u32],
) -> Result<bool, Refusal>
    ensures { outcome_of result ≡ compare_call text_a.now table_a.now text_b.now table_b.now }
{
    let n = finished(text_a, table_a)?;
    let m = finished(text_b, table_b)?;
    let a = Sheet {
        text: text_a,
        table: table_a,
    };
    let b = Sheet {
        text: text_b,
        table: table_b,
    };
    Ok(n == m && same_range(a, b, 0, n))
}

// Are the records from number `from` up to `end` equal in both? One turn for each sibling; what is in a container, by a call, which is the
// form that docs/DECISIONS.md gives comparison. A turn goes on behind what is in the record, so it is no turn of a `for`.
fn same_range(a: Sheet, b: Sheet, from: usize, end: usize) -> bool
    ensures { result
        ≡ same_records a.entry.text.now (records_of a.entry.table.now from (end - from)) b.entry.text.now (records_of b.entry.table.now from (end - from)) }
{
    let mut i = from;
    while i < end {
        if !same_record(a, b, i) {
            return false;
        }
        let size = a.size(i);
        i += 1;
        let behind = i + size.saturating_sub(1).min(end - i);
        if i < behind && !same_range(a, b, i, behind) {
            return false;
        }
        i = behind;
    }
    true
}

// Are the two records of this number equal: kind, size and text?
fn same_record(a: Sheet, b: Sheet, i: usize) -> bool
    ensures { result
        ≡ same_record a.entry.text.now (record_of a.entry.table.now i) b.entry.text.now (record_of b.entry.table.now i) }
{
    a.kind(i) == b.kind(i) && a.size(i) == b.size(i) && a.record_text(i) == b.record_text(i)
}
