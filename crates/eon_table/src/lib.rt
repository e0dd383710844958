// A finished table as its tree: the records by number, and the steps of a walk.
//
// A call that is handed a text with its table asks `eon_parse::finished`. Where that refuses, the call refuses alike (`refuses`, of
// proofs/Finished); where it answers n records, `finished_done` gives the tree t and `Finished s tb n t`, and `answers` says that the
// call's definition goes on with t. Then either
// - over all records in order: record i is the i-th of `tree_records t` (`record_is`, `record_split`; `records_more` and
//   `records_first`, of Table, for a loop's turn; `record_spanned`, of Spans, for its place in the text), or
// - over the tree (proofs/Here): `root` is the tree at record 0. Of a tree, `value` is the value where `after_prefix` leads, and
//   `next` and `past` say where `next_tree` leads; of a value, `as_map` and its like say what it is by its kind, with its text as
//   `record_text` returns it and its items from the next record up to `behind`. In a loop over items, `item` and `entry` say what
//   stands where `more` is true, and `no_item` and `no_entry` that nothing is left where it is false.
// A function that calls itself says `SomeValue` in its `requires` and `(v) → ValueAt .. v → ..` in its `ensures`.
#![tactic(auto)]

pub mod sheet;

pub use sheet::{Sheet, part};
