// The form of a path list, a list of at most PATHS_MAX paths, each a list of 1 to KEYS_MAX keys.
ghost use Rattle.std.specs.Prelude.{◌≡◌, ◌<◌, ℕ};
ghost use Rattle.eon_table.specs.Words.{word, part};
ghost use Rattle.eon_table.specs.TreeAt.{SomeTree, SomeValue};
ghost use Rattle.eon_spec.specs.Lookup.{keys_max};
ghost use Rattle.eon_lookup.specs.Keys.{key_kind, key_text, IsPath, IsPaths};

use eon_spec::{KEYS_MAX, PATHS_MAX, RecordKind};
use eon_table::{Sheet, part};

// Where the text of a key stands in the path text.
#[derive(Clone, Copy, Default)]
pub struct Place {
    pub start: usize,
    pub end: usize,
}

// The keys of a path: the first `len` places, since there is no heap.
#[derive(Clone, Copy, Default)]
pub struct Keys {
    pub places: [Place; KEYS_MAX],
    pub len: usize,
}

impl Keys {
    // The bytes of key d.
    pub fn text<'a>(&self, paths: &'a [u8], d: usize) -> &'a [u8]
        requires { d < keys_max }
        ensures { result.now ≡ key_text paths.now self.now.places d }
    {
        let place = self.places[d];
        part(paths, place.start, place.end)
    }
}

// Is record i a key: an identifier or a string?
pub fn is_key(sheet: Sheet, i: usize) -> bool
    ensures { result ≡ key_kind (word sheet.entry.table.now i 0) }
{
    sheet.is(i, RecordKind::Identifier) || sheet.is(i, RecordKind::String)
}

// The paths that the sheet's tree lists, in their order in the room, if it is a list of paths. As in `read_path`, how far a turn goes is
// said by the table, so neither loop is a `for`, and what is read is counted, since it is kept in an array: there is no heap.
pub fn read_paths<'a>(list: Sheet, room: &'a mut [Keys; PATHS_MAX]) -> Option<&'a [Keys]>
    requires { (end : ℕ) × SomeTree list.text.now list.table.now end 0 }
    ensures { IsPaths list.entry.text.now list.entry.table.now result }
{
    let i = list.after_prefix(0);
    if !list.is(i, RecordKind::List) {
        return None;
    }
    let end = list.behind(i);
    let mut j = i + 1;
    let mut n: usize = 0;
    while list.more(j, end) {
        if n == PATHS_MAX {
            return None;
        }
        room[n] = read_path(list, list.after_prefix(j))?;
        n += 1;
        j = list.next_tree(j, end);
    }
    Some(&room[..n])
}

// The path that record i is, if it is one.
fn read_path(list: Sheet, i: usize) -> Option<Keys>
    requires { SomeValue list.text.now list.table.now i }
    ensures { IsPath list.entry.text.now list.entry.table.now i result }
{
    if !list.is(i, RecordKind::List) {
        return None;
    }
    let end = list.behind(i);
    let mut path = Keys::default();
    let mut j = i + 1;
    while list.more(j, end) {
        let k = list.after_prefix(j);
        if path.len == KEYS_MAX {
            return None;
        }
        if !is_key(list, k) {
            return None;
        }
        path.places[path.len] = Place {
            start: list.start(k),
            end: list.text_end(k),
        };
        path.len += 1;
        j = list.next_tree(j, end);
    }
    if path.len == 0 {
        return None;
    }
    Some(path)
}
