// The record at a byte offset: first the nearest byte that a record covers, then the highest-numbered record that holds it.
ghost use Rattle.std.specs.Prelude.{◌≡◌};
ghost use Rattle.eon_spec.specs.Calls.{outcome_of};
ghost use Rattle.eon_spec.specs.Pick.{holds_byte, nearest_in, wins, nearer, nearest, highest, picked, record_at_call};
ghost use Rattle.eon_table.specs.Words.{record_of, records_of};

use eon_parse::finished;
use eon_spec::{Reason, Refusal};
use eon_table::Sheet;

// The number of the record at a byte offset. 27, where the records cover no byte, comes directly after 15.
#[tactic(auto, unfolding(eon_spec::specs::Pick::record_at_call))]
pub fn record_at(text: &[u8], table: &[u32], offset: usize) -> Result<usize, Refusal>
    ensures { outcome_of result ≡ record_at_call text.now table.now offset }
{
    let count = finished(text, table)?;
    let records = Records {
        sheet: Sheet { text, table },
        count,
    };
    records.pick(offset).ok_or(Refusal::new(Reason::NoByte, 0))
}

// The first `count` records of a sheet.
#[derive(Clone, Copy)]
struct Records<'a> {
    sheet: Sheet<'a, 'a>,
    count: usize,
}

impl<'a> Records<'a> {
    // The byte first, then the record.
    #[tactic(auto, unfolding(eon_spec::specs::Pick::picked))]
    fn pick(self, o: usize) -> Option<usize>
        ensures { result ≡ picked o (records_of self.entry.sheet.table.now 0 self.entry.count) }
    {
        let b = self.nearest_byte(o)?;
        self.last_holding(b)
    }

    // The nearest byte that a record covers; it is o where one holds it.
    fn nearest_byte(self, o: usize) -> Option<usize>
        ensures { result ≡ nearest o (records_of self.entry.sheet.table.now 0 self.entry.count) }
    {
        (0..self.count).fold(
            None,
            |best, i| nearer(o, best, nearest_in(self.sheet, i, o)),
        )
    }

    // The last record that holds the byte.
    fn last_holding(self, b: usize) -> Option<usize>
        ensures { result ≡ highest b 0 (records_of self.entry.sheet.table.now 0 self.entry.count) }
    {
        (0..self.count).rev().find(|&i| holds(self.sheet, i, b))
    }
}

// Does record i's span hold the byte?
fn holds(sheet: Sheet, i: usize, b: usize) -> bool
    ensures { result ≡ holds_byte b (record_of sheet.entry.table.now i) }
{
    (sheet.start(i)..sheet.end(i)).contains(&b)
}

// The byte of record i that is nearest to o: o itself, the record's first byte or its last.
fn nearest_in(sheet: Sheet, i: usize, o: usize) -> Option<usize>
    ensures { result ≡ nearest_in o (record_of sheet.entry.table.now i) }
{
    let start = sheet.start(i);
    let end = sheet.end(i);
    if end <= start {
        return None;
    }
    Some(o.clamp(start, end - 1))
}

// The byte that wins of those of earlier records and of a later one.
fn nearer(o: usize, earlier: Option<usize>, later: Option<usize>) -> Option<usize>
    ensures { result ≡ nearer o earlier later }
{
    match (earlier, later) {
        (Some(a), Some(b)) if wins(o, b, a) => later,
        (Some(_), _) => earlier,
        (None, _) => later,
    }
}

// Is b nearer to o than a, or as near and the lesser?
fn wins(o: usize, b: usize, a: usize) -> bool
    ensures { result ≡ wins o b a }
{
    (o.abs_diff(b), b) < (o.abs_diff(a), a)
}
