// A text with its finished table: the records by number, their texts, and the steps of a walk over the table as a tree.
ghost use Rattle.std.specs.Prelude.{◌≡◌, List, length, ℕ, ◌+◌, ◌*◌, ◌^◌, ◌≤◌, ◌<◌, ◌↔◌, IsTrue};
ghost use Rattle.eon_spec.specs.RecordKind.{word_of};
ghost use Rattle.eon_spec.specs.Calls.{record_text};
ghost use Rattle.eon_table.specs.Words.{word, record_of, part, text_at, has_suffix, more_at, AfterPrefix};
ghost use Rattle.eon_table.specs.TreeAt.{SomeTree, NextAt};

use eon_spec::{RECORD_WORDS, RecordKind};

// The words of a record, in the order that include/eon.h gives: C reads the table.
const KIND: usize = 0;

const START: usize = 1;

const TEXT_END: usize = 2;

const END: usize = 3;

const SIZE: usize = 4;

// Each is lent for itself: a piece of the text can be kept where the table is written again.
#[derive(Clone, Copy)]
pub struct Sheet<'a, 'b> {
    pub text: &'a [u8],
    pub table: &'b [u32],
}

impl<'a, 'b> Sheet<'a, 'b> {
    // ---- a record

    // Word k of record i, and 0 past the end. C's words are u32; they are answered as places and numbers of records, so each of the
    // functions here says that it is below 2 ^ 32.
    fn word(self, i: usize, k: usize) -> usize
        requires { k < RECORD_WORDS }
        ensures value { result ≡ word self.entry.table.now i k }
        ensures sized { result < 2 ^ 32 }
    {
        if i < self.table.len() {
            self.table
                .get(RECORD_WORDS * i + k)
                .map_or(0, |&w| w as usize)
        } else {
            0
        }
    }

    // A word of a lent table may be any number, so its kind is asked for, and is no `RecordKind`.
    pub fn is(self, i: usize, kind: RecordKind) -> bool
        ensures { IsTrue result ↔ (word self.entry.table.now i 0 ≡ word_of kind) }
    {
        self.kind(i) == usize::from(kind)
    }

    // The word of its kind.
    pub fn kind(self, i: usize) -> usize
        ensures value { result ≡ word self.entry.table.now i 0 }
        ensures sized { result < 2 ^ 32 }
    {
        self.word(i, KIND)
    }

    pub fn start(self, i: usize) -> usize
        ensures value { result ≡ word self.entry.table.now i 1 }
        ensures sized { result < 2 ^ 32 }
    {
        self.word(i, START)
    }

    // A variant name's end, otherwise the record's.
    pub fn text_end(self, i: usize) -> usize
        ensures value { result ≡ word self.entry.table.now i 2 }
        ensures sized { result < 2 ^ 32 }
    {
        self.word(i, TEXT_END)
    }

    pub fn end(self, i: usize) -> usize
        ensures value { result ≡ word self.entry.table.now i 3 }
        ensures sized { result < 2 ^ 32 }
    {
        self.word(i, END)
    }

    // The records in it, counting itself.
    pub fn size(self, i: usize) -> usize
        ensures value { result ≡ word self.entry.table.now i 4 }
        ensures sized { result < 2 ^ 32 }
    {
        self.word(i, SIZE)
    }

    // ---- texts

    // The bytes of a leaf or a comment, and of a variant its name.
    pub fn text_at(self, i: usize) -> &'a [u8]
        ensures { result.now ≡ text_at self.entry.text.now self.entry.table.now i }
    {
        part(self.text, self.start(i), self.text_end(i))
    }

    // The same, and nothing of a list or a map.
    pub fn record_text(self, i: usize) -> &'a [u8]
        ensures { result.now ≡ record_text self.entry.text.now (record_of self.entry.table.now i) }
    {
        if self.is(i, RecordKind::List) || self.is(i, RecordKind::Map) {
            return &[];
        }
        self.text_at(i)
    }

    // ---- the steps of a walk

    // The first record from i on that is no prefix comment: the record of the value of a tree at i. A `for` over numbers, and no slice
    // of records: of a record that the table's end cuts short the words that are there count.
    pub fn after_prefix(self, i: usize) -> usize
        ensures { AfterPrefix self.entry.table.now i result }
    {
        for j in i..self.table.len() {
            if !self.is(j, RecordKind::PrefixComment) {
                return j;
            }
        }
        i.max(self.table.len())
    }

    #[tactic(auto, unfolding(crate::specs::Words::has_suffix))]
    pub fn has_suffix(self, i: usize, end: usize) -> bool
        ensures { result ≡ has_suffix self.entry.table.now end i }
    {
        i < end && self.is(i, RecordKind::SuffixComment)
    }

    // Does an item of a container start at record i? `end` is where the container's records end.
    #[tactic(auto, unfolding(crate::specs::Words::more_at))]
    pub fn more(self, i: usize, end: usize) -> bool
        ensures { result ≡ more_at self.entry.table.now end i }
    {
        i < end && !self.is(i, RecordKind::ClosingComment)
    }

    // The record behind a value's records: where the items of a container at record i end.
    pub fn behind(self, i: usize) -> usize
        requires { i < length self.table.now }
        ensures { result ≡ i + (record_of self.entry.table.now i).size }
    {
        i + self.size(i)
    }

    // The record after the tree that starts at record i: the next item, a key's value, or the next key.
    pub fn next_tree(self, i: usize, end: usize) -> usize
        requires { (s : List ℕ) × SomeTree s self.table.now end i }
        ensures { NextAt self.entry.table.now end i result }
    {
        let j = self.after_prefix(i);
        let k = j + self.size(j);
        if self.has_suffix(k, end) { k + 1 } else { k }
    }
}

// The bytes from a place to another; what lies past the text's end is left out.
pub fn part(text: &[u8], from: usize, to: usize) -> &[u8]
    ensures { result.now ≡ part text.now from to }
{
    let start = from.min(text.len());
    let end = to.min(text.len()).max(start);
    &text[start..end]
}
