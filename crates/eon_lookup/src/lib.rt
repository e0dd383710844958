// Many paths looked up in one walk over an event's finished table.
#![tactic(auto)]

ghost use Rattle.std.specs.Prelude.{◌≡◌, replicate};
ghost use Rattle.eon_spec.specs.Lookup.{lookup_call, paths_max, none_word, IsLookup};

mod paths;
mod walks;

use crate::paths::{Keys, read_paths};
use crate::walks::Live;
use eon_parse::finished;
use eon_spec::{Found, NONE, PATHS_MAX, Reason, Refusal};
use eon_table::Sheet;

// What each path of a path text reaches in an event, each text with its finished table. Refused as the event's table is, then as the path
// table is, then by 28.
pub fn lookup(text: &[u8], table: &[u32], paths: &[u8], paths_table: &[u32]) -> Found
    ensures { IsLookup (lookup_call text.now table.now paths.now paths_table.now) result }
{
    let mut answers = [NONE; PATHS_MAX];
    let event = Sheet { text, table };
    let list = Sheet {
        text: paths,
        table: paths_table,
    };
    let answer = look_up(event, list, &mut answers);
    Found { answer, answers }
}

// How many steps it took. A refusal leaves the answers as they are.
fn look_up(event: Sheet, list: Sheet, answers: &mut [u32; PATHS_MAX]) -> Result<usize, Refusal>
    requires { answers.old ≡ replicate paths_max none_word }
    ensures { IsLookup (lookup_call event.entry.text.now event.entry.table.now list.entry.text.now list.entry.table.now) (record { answer = result; answers = answers.new }) }
{
    finished(event.text, event.table)?;
    finished(list.text, list.table)?;
    let mut room = [Keys::default(); PATHS_MAX];
    let paths = read_paths(list, &mut room).ok_or(Refusal::new(Reason::NoPaths, 0))?;
    let numbers: [usize; PATHS_MAX] = std::array::from_fn(|p| p);
    let all = Live {
        text: list.text,
        paths,
        numbers: &numbers[..paths.len()],
        matched: 0,
    };
    Ok(all.run(event, answers))
}
