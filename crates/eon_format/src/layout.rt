// The walk over the table's tree that lays it out.
//
// It is linear in the records, the bytes of the strings and the indentations written. Its steps over an item look at the item's
// prefix comments, its own record and the one behind it, at most three times; a container looks at no more than four records to see
// whether it is flat, and no string is searched for a line feed twice. An indentation costs its depth, also where it is only measured.
//
// The loops over items are `while`s: a turn ends where `next_tree` leads, and what it needs of the tree there is the loop's own
// invariant. An iterator would have to carry that tree.
ghost use Rattle.std.specs.Prelude.{◌≡◌, List, ◌++◌, ℕ, ◌+◌, ◌<◌, ◌≤◌, true, false};
ghost use Rattle.eon_spec.specs.Tree.{Slice, TokenTree, TokenValue, TokenTrees, KeyValues, list_of, map_of, variant_of};
ghost use Rattle.eon_spec.specs.Layout.{value, indented_value, shared, is_container, map_content, closing, no_key_values, format, settings_of};
ghost use Rattle.eon_one_line.specs.Flat.{flat_at};
ghost use Rattle.eon_format.specs.Long.{long_list, long_map, pair_text, SomeContainer, SomePaired};
ghost use Rattle.eon_table.specs.Words.{word};
ghost use Rattle.eon_table.specs.TreeAt.{PairAt, PairedAt, SomePair, SomeList, SomeMap, SomeVariant, TreeAt, ValueAt, SomeTree, SomeValue};

use crate::items::{Layout, put_blank, sole};
use crate::node::Node;
use eon_one_line::{is_flat, put_flat, put_plain};
use eon_put::{Sink, newline};
use eon_spec::RecordKind;

impl<'a> Layout<'a> {
    // TokenTree::format: the tree's records are those before `end`.
    pub fn format<S: Sink>(self, end: usize, sink: &mut S)
        requires { SomeTree self.sheet.text.now self.sheet.table.now end 0 }
        ensures { (t : TokenTree) → TreeAt self.entry.sheet.text.now self.entry.sheet.table.now end 0 t → S.puts sink.old (format (settings_of self.entry.options.now) t) sink.new }
    {
        let depth = 0;
        let root = self.sheet.after_prefix(0);
        if self.options.always_include_outer_braces || !self.sheet.is(root, RecordKind::Map) {
            self.indented_value(Node { index: 0, depth }, end, sink);
            return;
        }
        let behind = self.sheet.behind(root);
        let index = root + 1;
        self.indented_comments(0, root, depth, sink);
        self.map_content(Node { index, depth }, behind, sink);
        self.suffix_comment(behind, end, sink);
    }

    // A tree: the lines before it, its value and its suffix comment.
    #[cycle(layout)]
    fn indented_value<S: Sink>(self, node: Node, end: usize, sink: &mut S)
        requires tree { SomeTree self.sheet.text.now self.sheet.table.now end node.index }
        ensures { (t : TokenTree) → TreeAt self.entry.sheet.text.now self.entry.sheet.table.now end node.index t → S.puts sink.old (indented_value (settings_of self.entry.options.now) node.depth t) sink.new }
    {
        let depth = node.depth;
        let index = self.sheet.after_prefix(node.index);
        self.lead(node.index, index, depth, sink);
        self.value(Node { index, depth }, sink);
        self.suffix_comment(self.sheet.behind(index), end, sink);
    }

    // A value. A simple one is written here, so that it costs no call with a large frame.
    #[cycle(layout)]
    fn value<S: Sink>(self, node: Node, sink: &mut S)
        requires value { SomeValue self.sheet.text.now self.sheet.table.now node.index }
        ensures { (v : TokenValue) → ValueAt self.entry.sheet.text.now self.entry.sheet.table.now node.index v → S.puts sink.old (value (settings_of self.entry.options.now) node.depth v) sink.new }
    {
        if self.sheet.size(node.index) == 1 {
            put_plain(self.sheet, node.index, sink);
        } else {
            self.container(node, sink);
        }
    }

    // A list, map or variant with something in it.
    #[cycle(layout)]
    fn container<S: Sink>(self, node: Node, sink: &mut S)
        requires value { SomeValue self.sheet.text.now self.sheet.table.now node.index }
        requires something { word self.sheet.table.now node.index 4 ≡ 1 → ⊥ }
        ensures { (v : TokenValue) → ValueAt self.entry.sheet.text.now self.entry.sheet.table.now node.index v → S.puts sink.old (value (settings_of self.entry.options.now) node.depth v) sink.new }
    {
        if is_flat(self.sheet, node.index) {
            put_flat(self.sheet, node.index, sink);
        } else if self.sheet.is(node.index, RecordKind::List) {
            self.list(node, sink);
        } else if self.sheet.is(node.index, RecordKind::Map) {
            self.map(node, sink);
        } else {
            self.variant(node, sink);
        }
    }

    // A list on lines.
    #[cycle(layout)]
    fn list<S: Sink>(self, node: Node, sink: &mut S)
        requires list { SomeList self.sheet.text.now self.sheet.table.now node.index }
        ensures { (vs : TokenTrees) (cl : List Slice) → ValueAt self.entry.sheet.text.now self.entry.sheet.table.now node.index (list_of vs cl) → S.puts sink.old (long_list (settings_of self.entry.options.now) node.depth vs cl) sink.new }
    {
        let end = self.sheet.behind(node.index);
        let depth = node.depth + 1;
        let base = node.index + 1;
        let mut index = base;
        self.open_lines(b'[', sink);
        while self.sheet.more(index, end) {
            self.gap(base, index, sink);
            self.indented_value(Node { index, depth }, end, sink);
            newline(self.options, sink);
            index = self.sheet.next_tree(index, end);
        }
        self.closing(base, index, end, depth, sink);
        self.close_lines(node.depth, b']', sink);
    }

    // A map on lines.
    #[cycle(layout)]
    fn map<S: Sink>(self, node: Node, sink: &mut S)
        requires map { SomeMap self.sheet.text.now self.sheet.table.now node.index }
        ensures { (kvs : KeyValues) (cl : List Slice) → ValueAt self.entry.sheet.text.now self.entry.sheet.table.now node.index (map_of kvs cl) → S.puts sink.old (long_map (settings_of self.entry.options.now) node.depth kvs cl) sink.new }
    {
        let depth = node.depth + 1;
        let index = node.index + 1;
        self.open_lines(b'{', sink);
        self.map_content(Node { index, depth }, self.sheet.behind(node.index), sink);
        self.close_lines(node.depth, b'}', sink);
    }

    // A map's pairs on lines from the first on, and its closing comments.
    #[cycle(layout)]
    fn map_content<S: Sink>(self, first: Node, end: usize, sink: &mut S)
        requires { SomePaired self.sheet.text.now self.sheet.table.now end first.index }
        ensures { (kvs : KeyValues) (cl : List Slice) → PairedAt self.entry.sheet.text.now self.entry.sheet.table.now end first.index kvs cl → S.puts sink.old (map_content (settings_of self.entry.options.now) first.depth true kvs ++ closing (settings_of self.entry.options.now) first.depth (no_key_values kvs) cl) sink.new }
    {
        let depth = first.depth;
        let mut index = first.index;
        while self.sheet.more(index, end) {
            self.gap(first.index, index, sink);
            self.indented_key_value(Node { index, depth }, end, sink);
            newline(self.options, sink);
            let value = self.sheet.next_tree(index, end);
            index = self.sheet.next_tree(value, end);
        }
        self.closing(first.index, index, end, depth, sink);
    }

    #[cycle(layout)]
    fn indented_key_value<S: Sink>(self, node: Node, end: usize, sink: &mut S)
        requires pair { SomePair self.sheet.text.now self.sheet.table.now end node.index }
        ensures { (k v : TokenTree) → PairAt self.entry.sheet.text.now self.entry.sheet.table.now end node.index k v → S.puts sink.old (pair_text (settings_of self.entry.options.now) node.depth k v) sink.new }
    {
        let depth = node.depth;
        let k = self.sheet.after_prefix(node.index);
        let v = self.sheet.next_tree(node.index, end);
        let w = self.sheet.after_prefix(v);
        self.indented_comments(node.index, k, depth, sink);
        self.lead(v, w, depth, sink);
        self.value(Node { index: k, depth }, sink);
        sink.put_all(self.options.key_value_separator.text());
        self.value(Node { index: w, depth }, sink);
        self.suffix_comment(self.sheet.behind(w), end, sink);
    }

    // A variant that is not on one line.
    #[cycle(layout)]
    fn variant<S: Sink>(self, node: Node, sink: &mut S)
        requires variant { SomeVariant self.sheet.text.now self.sheet.table.now node.index }
        requires lines { flat_at self.sheet.text.now self.sheet.table.now node.index ≡ false }
        ensures { (m : Slice) (vs : TokenTrees) (cl : List Slice) → ValueAt self.entry.sheet.text.now self.entry.sheet.table.now node.index (variant_of m vs cl) → S.puts sink.old (value (settings_of self.entry.options.now) node.depth (variant_of m vs cl)) sink.new }
    {
        let depth = node.depth;
        let end = self.sheet.behind(node.index);
        sink.put_all(self.sheet.text_at(node.index));
        match sole(self.sheet, node.index + 1, end) {
            None => self.long_variant(node, sink),
            Some(index) => {
                sink.put(b'(');
                self.shared(Node { index, depth }, sink);
                sink.put(b')');
            }
        }
    }

    // A variant's sole list or map, within its brackets.
    #[cycle(layout)]
    fn shared<S: Sink>(self, node: Node, sink: &mut S)
        requires container { SomeContainer self.sheet.text.now self.sheet.table.now node.index }
        ensures { (v : TokenValue) → ValueAt self.entry.sheet.text.now self.entry.sheet.table.now node.index v → is_container v ≡ true → S.puts sink.old (shared (settings_of self.entry.options.now) node.depth v) sink.new }
    {
        if self.sheet.size(node.index) == 1 {
            put_blank(self.sheet, node.index, sink);
        } else if self.sheet.is(node.index, RecordKind::List) {
            self.list(node, sink);
        } else {
            self.map(node, sink);
        }
    }
}
