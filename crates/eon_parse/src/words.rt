// The words of a table. A store past its end is none. Where a record's words stand, `i`, is bounded so that the next ones' places are
// too; a type of such a place would be made anew from each record's number.
ghost use Rattle.std.specs.Prelude.{◌≡◌, ◌<◌, set};
ghost use Rattle.std.proofs.lemmas.List.Edits.{sets};
ghost use Rattle.eon_parse.specs.Answer.{holds, agrees, words_of};

use eon_spec::RecordKind;

// A record of a table.
#[derive(Clone, Copy)]
pub struct Record {
    pub kind: RecordKind,
    pub start: u32,
    pub text_end: u32,
    pub end: u32,
    pub size: u32,
}

impl Record {
    // Is it the table's record at i? One test after the other: joined by `&&` the check lost which of them had held.
    #[tactic(auto, using(crate::proofs::Laws::agrees_5))]
    pub fn is_in(self, table: &[u32], i: usize) -> bool
        requires { i < 1000000 }
        ensures { result ≡ agrees table.now i (words_of self) }
    {
        if !holds(table, i, u32::from(self.kind)) {
            return false;
        }
        if !holds(table, i + 1, self.start) {
            return false;
        }
        if !holds(table, i + 2, self.text_end) {
            return false;
        }
        if !holds(table, i + 3, self.end) {
            return false;
        }
        holds(table, i + 4, self.size)
    }

    // One store after the other, each where the table reaches: a slice of five would have to be there whole.
    pub fn store_in(self, table: &mut [u32], i: usize)
        requires { i < 1000000 }
        ensures { table.new ≡ sets table.old i (words_of self) }
    {
        put(table, i, u32::from(self.kind));
        put(table, i + 1, self.start);
        put(table, i + 2, self.text_end);
        put(table, i + 3, self.end);
        put(table, i + 4, self.size);
    }
}

#[tactic(auto, unfolding(crate::specs::Answer::holds))]
fn holds(table: &[u32], i: usize, word: u32) -> bool
    ensures { result ≡ holds table.now i word }
{
    table.get(i) == Some(&word)
}

fn put(table: &mut [u32], i: usize, word: u32)
    ensures { table.new ≡ set table.old i word }
{
    if i < table.len() {
        table[i] = word;
    }
}
