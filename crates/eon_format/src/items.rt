// What stands between the values of a layout: lines of comments, line ends, brackets.
ghost use Rattle.std.specs.Prelude.{◌≡◌, List, [], ◌∷◌, ◌++◌, ℕ, ◌+◌, ◌-◌, ◌<◌, ◌≤◌, length, Option, eqb};
ghost use Rattle.eon_spec.specs.Tree.{Slice, TokenTrees};
ghost use Rattle.eon_spec.specs.Layout.{Settings, add_indent, suffix_comment, text_of, settings_of};
ghost use Rattle.eon_format.specs.Lines.{gap_at, lines, closing_lines};
ghost use Rattle.eon_format.specs.Long.{long_variant, blank_at, SoleAt};
ghost use Rattle.eon_table.specs.Words.{word};
ghost use Rattle.eon_table.specs.TreeAt.{SomeInside, InsideAt, SuffixAt};

use crate::node::Node;
use eon_put::{Sink, add_indent, newline};
use eon_spec::{FormatOptions, RecordKind};
use eon_table::Sheet;

// A sheet, and how it is laid out.
#[derive(Clone, Copy)]
pub struct Layout<'a> {
    pub sheet: Sheet<'a, 'a>,
    pub options: &'a FormatOptions,
}

impl<'a> Layout<'a> {
    // The records from i up to `end`, each on a line.
    pub fn indented_comments<S: Sink>(self, i: usize, end: usize, n: usize, sink: &mut S)
        ensures { S.puts sink.old (lines self.entry.sheet.text.now self.entry.sheet.table.now (settings_of self.entry.options.now) n i (end - i)) sink.new }
    {
        for j in i..end {
            add_indent(self.options, n, sink);
            sink.put_all(self.sheet.text_at(j));
            newline(self.options, sink);
        }
    }

    // The lines before a value, and its indentation.
    pub fn lead<S: Sink>(self, i: usize, end: usize, n: usize, sink: &mut S)
        ensures { S.puts sink.old (lines self.entry.sheet.text.now self.entry.sheet.table.now (settings_of self.entry.options.now) n i (end - i) ++ add_indent (settings_of self.entry.options.now) n) sink.new }
    {
        self.indented_comments(i, end, n, sink);
        add_indent(self.options, n, sink);
    }

    pub fn suffix_comment<S: Sink>(self, i: usize, end: usize, sink: &mut S)
        ensures { (o : Settings) (x : Option Slice) → SuffixAt self.entry.sheet.text.now self.entry.sheet.table.now end i x → S.puts sink.old (suffix_comment o x) sink.new }
    {
        if self.sheet.has_suffix(i, end) {
            sink.put(b' ');
            sink.put_all(self.sheet.text_at(i));
        }
    }

    // The closing comments from i up to `end`, after a line end if items stand before them, from record `base` on.
    pub fn closing<S: Sink>(self, base: usize, i: usize, end: usize, n: usize, sink: &mut S)
        ensures { S.puts sink.old (closing_lines self.entry.sheet.text.now self.entry.sheet.table.now (settings_of self.entry.options.now) n (eqb i base) i (end - i)) sink.new }
    {
        if end <= i {
            return;
        }
        if i != base {
            newline(self.options, sink);
        }
        self.indented_comments(i, end, n, sink);
    }

    // A line end before an item with prefix comments that is not the first: that one stands at record `base`.
    pub fn gap<S: Sink>(self, base: usize, i: usize, sink: &mut S)
        ensures { S.puts sink.old (gap_at (settings_of self.entry.options.now) self.entry.sheet.table.now (eqb i base) i) sink.new }
    {
        if i != base && self.sheet.is(i, RecordKind::PrefixComment) {
            newline(self.options, sink);
        }
    }

    // A bracket and a line end.
    pub fn open_lines<S: Sink>(self, bracket: u8, sink: &mut S)
        ensures { S.puts sink.old ((bracket ∷ []) ++ text_of self.entry.options.now.newline) sink.new }
    {
        sink.put(bracket);
        newline(self.options, sink);
    }

    // The indentation and the bracket.
    pub fn close_lines<S: Sink>(self, n: usize, bracket: u8, sink: &mut S)
        ensures { S.puts sink.old (add_indent (settings_of self.entry.options.now) n ++ (bracket ∷ [])) sink.new }
    {
        add_indent(self.options, n, sink);
        sink.put(bracket);
    }

    // Any other long variant: line ends for its values, which it leaves out. In one with `list` a flag would have to say so.
    pub fn long_variant<S: Sink>(self, node: Node, sink: &mut S)
        requires there { node.index < length self.sheet.table.now }
        requires inside { SomeInside self.sheet.text.now self.sheet.table.now (node.index + word self.sheet.table.now node.index 4) (node.index + 1) }
        ensures { (vs : TokenTrees) (cl : List Slice) → InsideAt self.entry.sheet.text.now self.entry.sheet.table.now (node.index + word self.entry.sheet.table.now node.index 4) (node.index + 1) vs cl → S.puts sink.old (long_variant (settings_of self.entry.options.now) node.depth vs cl) sink.new }
    {
        let end = self.sheet.behind(node.index);
        let base = node.index + 1;
        let mut index = base;
        self.open_lines(b'(', sink);
        while self.sheet.more(index, end) {
            self.gap(base, index, sink);
            newline(self.options, sink);
            index = self.sheet.next_tree(index, end);
        }
        self.closing(base, index, end, node.depth + 1, sink);
        self.close_lines(node.depth, b')', sink);
    }
}

// The record of a variant's sole list or map.
pub fn sole(sheet: Sheet, i: usize, end: usize) -> Option<usize>
    requires there { i < end }
    requires inside { (s : List ℕ) × SomeInside s sheet.table.now end i }
    ensures { (s : List ℕ) (vs : TokenTrees) (cl : List Slice) → InsideAt s sheet.entry.table.now end i vs cl → SoleAt s sheet.entry.table.now i vs cl result }
{
    if sheet.is(i, RecordKind::ClosingComment) || sheet.next_tree(i, end) != end {
        return None;
    }
    let value = sheet.after_prefix(i);
    if sheet.is(value, RecordKind::List) || sheet.is(value, RecordKind::Map) {
        return Some(value);
    }
    None
}

// An empty list or map within a variant's brackets.
pub fn put_blank<S: Sink>(sheet: Sheet, i: usize, sink: &mut S)
    ensures { S.puts sink.old (blank_at sheet.entry.table.now i) sink.new }
{
    if sheet.is(i, RecordKind::List) {
        sink.put_all(b"[ ]");
    } else {
        sink.put_all(b"{ }");
    }
}
