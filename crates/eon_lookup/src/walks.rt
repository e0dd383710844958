// One walk over the event's table with all paths.
ghost use Rattle.std.specs.Prelude.{◌≡◌, List, ℕ, suc, ◌+◌, ◌≤◌, ◌<◌, length, [], MatchOption};
ghost use Rattle.eon_laws.proofs.Records.{tree_size};
ghost use Rattle.eon_spec.specs.Tree.{Slice, TokenTree, KeyValues, map_of};
ghost use Rattle.eon_spec.specs.Lookup.{keys_max, paths_max, none_word};
ghost use Rattle.eon_table.specs.Words.{word};
ghost use Rattle.eon_table.specs.TreeAt.{TreeAt, ValueAt, SomeMap};
ghost use Rattle.eon_lookup.specs.Keys.{key_here, Going};
ghost use Rattle.eon_lookup.specs.Live.{answered, KeyMatched, Walked, Looks};

use crate::paths::{Keys, is_key};
use eon_spec::{NONE, PATHS_MAX, RecordKind};
use eon_table::Sheet;

// Of the paths of a path text, by their numbers, those whose first `matched` keys were met and which have one left.
// One is always made with all its fields named: `..` of another is refused where there are ghost fields.
#[derive(Clone, Copy)]
pub struct Live<'a> {
    pub text: &'a [u8],
    pub paths: &'a [Keys],
    pub numbers: &'a [usize],
    pub matched: usize,
    pub ghost left: { matched < keys_max },
    pub ghost few: { length numbers.now ≤ paths_max },
    pub ghost going: { Going paths.now matched numbers.now },
}

impl<'a> Live<'a> {
    // How many steps the walk of the event took: the root, and the keys and values met.
    pub fn run(self, event: Sheet, answers: &mut [u32; PATHS_MAX]) -> usize
        requires { (t : TokenTree) × (end : ℕ) × (TreeAt event.text.now event.table.now end 0 t) × (tree_size t < none_word) }
        ensures { (end : ℕ) (t : TokenTree) → TreeAt event.entry.text.now event.entry.table.now end 0 t → Looks self.entry.text.now self.entry.paths.now self.entry.matched self.entry.numbers.now t answers.old answers.new result }
    {
        let i = event.after_prefix(0);
        if self.numbers.is_empty() || !event.is(i, RecordKind::Map) {
            return 1;
        }
        1 + self.inside_map(event, i, answers)
    }

    // The pairs of the map that is record i. Each pair is gone over once; a map that no path goes on to is passed over by its size. How
    // many keys and values were met. How far a turn goes is said by the table, so the loop is no `for`.
    fn inside_map(self, event: Sheet, i: usize, answers: &mut [u32; PATHS_MAX]) -> usize
        requires inside { i + word event.table.now i 4 < none_word }
        requires map { SomeMap event.text.now event.table.now i }
        ensures { (kvs : KeyValues) (cl : List Slice) → ValueAt event.entry.text.now event.entry.table.now i (map_of kvs cl) → Walked self.entry.text.now self.entry.paths.now self.entry.matched self.entry.numbers.now (suc i) kvs answers.old answers.new result }
    {
        let end = event.behind(i);
        let mut next = [0usize; PATHS_MAX];
        let mut j = i + 1;
        let mut steps: usize = 0;
        while event.more(j, end) {
            let k = event.after_prefix(j);
            let v = event.next_tree(j, end);
            let w = event.after_prefix(v);
            let on = self.match_key(event, k, w, answers, &mut next);
            j = event.next_tree(v, end);
            steps += 2;
            let Some(on) = on else {
                continue;
            };
            if !event.is(w, RecordKind::Map) {
                continue;
            }
            steps += on.inside_map(event, w, answers);
        }
        steps
    }

    // Behind the key of record k, whose value is record w: the paths that end are answered, and those that go on are handed back, if one
    // does. Their numbers stand in a lent list, since there is no heap. One loop: two chains, of those that end and of those that go on,
    // would compare each key twice.
    fn match_key(
        self,
        event: Sheet,
        k: usize,
        w: usize,
        answers: &mut [u32; PATHS_MAX],
        next: &'a mut [usize; PATHS_MAX],
    ) -> Option<Live<'a>>
        requires { w < none_word }
        ensures { MatchOption result (KeyMatched self.entry.text.now self.entry.paths.now self.entry.matched (key_here event.entry.text.now event.entry.table.now k) self.entry.numbers.now w answers.old answers.new [])
            (λ on. (0 < length on.numbers.now) × (on.text.now ≡ self.entry.text.now) × (on.paths.now ≡ self.entry.paths.now) × (on.matched ≡ self.entry.matched + 1) × KeyMatched self.entry.text.now self.entry.paths.now self.entry.matched (key_here event.entry.text.now event.entry.table.now k) self.entry.numbers.now w answers.old answers.new on.numbers.now) }
    {
        if !is_key(event, k) {
            return None;
        }
        let key = event.record_text(k);
        let behind = self.matched + 1;
        let mut n: usize = 0;
        for &p in self.numbers {
            let keys = &self.paths[p];
            if keys.text(self.text, self.matched) != key {
                continue;
            }
            if behind < keys.len {
                next[n] = p;
                n += 1;
                continue;
            }
            give(answers, p, w);
        }
        if next[..n].is_empty() {
            return None;
        }
        Some(Live {
            text: self.text,
            paths: self.paths,
            numbers: &next[..n],
            matched: behind,
        })
    }
}

// Path p is answered by record w, unless it has an answer. NONE and no Option: C reads the words.
fn give(answers: &mut [u32; PATHS_MAX], p: usize, w: usize)
    requires path { p < paths_max }
    requires value { w < none_word }
    ensures { answers.new ≡ answered answers.old p w }
{
    if answers[p] == NONE {
        answers[p] = w as u32;
    }
}
