// The records in a byte range, in a lent list of hits. `fill` and `records_in` take the list; what is a hit, how many there are and
// whether they fit is decided before it is touched.
ghost use Rattle.std.specs.Prelude.{◌≡◌, ◌≤◌, length};
ghost use Rattle.eon_spec.specs.Calls.{outcome_of, after, written};
ghost use Rattle.eon_spec.specs.Pick.{shares_byte, hit_of, records_in_call};
ghost use Rattle.eon_table.specs.Words.{record_of};
ghost use Rattle.eon_pick.specs.Listed.{all_hits};

use eon_parse::finished;
use eon_spec::{Hit, Reason, Refusal};
use eon_table::Sheet;

// Lists every record that shares a byte with the range, its end not counted, and answers how many. 14 leaves the list as it is.
#[tactic(auto, unfolding(eon_spec::specs::Pick::records_in_call, eon_spec::specs::Calls::fill))]
pub fn records_in(
    text: &[u8],
    table: &[u32],
    from: usize,
    to: usize,
    hits: &mut [Hit],
) -> Result<usize, Refusal>
    ensures { after (outcome_of result) hits.new ≡ records_in_call text.now table.now from to hits.old }
{
    let records = finished(text, table)?;
    let query = Query {
        sheet: Sheet { text, table },
        records,
        from,
        to,
    };
    let count = query.count();
    if hits.len() < count {
        return Err(Refusal::new(Reason::NoSpace, 0));
    }
    query.fill(hits);
    Ok(count)
}

// The first records of a sheet, and the range that is asked for. No `Records` in it: each line that reads a record would be longer.
#[derive(Clone, Copy)]
struct Query<'a> {
    sheet: Sheet<'a, 'a>,
    records: usize,
    from: usize,
    to: usize,
}

impl<'a> Query<'a> {
    fn is_hit(self, i: usize) -> bool
        ensures { result ≡ shares_byte self.entry.from self.entry.to (record_of self.entry.sheet.table.now i) }
    {
        self.sheet.start(i).max(self.from) < self.sheet.end(i).min(self.to)
    }

    // A record's number with its span.
    fn hit(self, i: usize) -> Hit
        ensures { result ≡ hit_of i (record_of self.entry.sheet.table.now i) }
    {
        Hit {
            record: i,
            start: self.sheet.start(i),
            end: self.sheet.end(i),
        }
    }

    fn count(self) -> usize
        ensures { result ≡ length (all_hits self.entry.from self.entry.to self.entry.records self.entry.sheet.table.now) }
    {
        (0..self.records).filter(|&i| self.is_hit(i)).count()
    }

    // Fills the list with the hits; what stands behind them stays.
    fn fill(self, hits: &mut [Hit])
        requires { length (all_hits self.from self.to self.records self.sheet.table.now) ≤ length hits.old }
        ensures { hits.new ≡ written (all_hits self.entry.from self.entry.to self.entry.records self.entry.sheet.table.now) hits.old }
    {
        // By index: of the list behind an `iter_mut().zip(..)` that is over, a proof knows the length alone.
        let found = (0..self.records).filter(|&i| self.is_hit(i));
        for (count, i) in found.enumerate() {
            hits[count] = self.hit(i);
        }
    }
}
