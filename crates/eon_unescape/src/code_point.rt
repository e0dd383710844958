// What any code point below 0x200000 does, also one that no `char` has: a surrogate, or one from 0x110000 on.
ghost use Rattle.std.specs.Prelude.{◌≡◌, ◌<◌, ◌≤◌, List, ◌∷◌, ℕ};
ghost use Rattle.eon_unescape.specs.Modes.{reads_by, onward_code, PutsBelow};

use crate::mode::{Mode, Step};
use eon_spec::Reason;

// A `Step` that gives a number, and no `char`.
#[derive(Clone, Copy)]
pub enum CodeStep {
    Go(Mode),
    Put(u32, Mode),
}

pub fn read_char(mode: Mode, c: u32) -> Result<CodeStep, Reason>
    requires { c < 0x200000 }
    ensures step { (s : List ℕ) → reads_by mode (c ∷ s) ≡ onward_code result s }
    ensures below { PutsBelow 0x200000 result }
{
    let Some(scalar) = char::from_u32(c) else {
        return no_scalar(mode, c);
    };
    match mode.read_char(scalar)? {
        Step::Go(to) => Ok(CodeStep::Go(to)),
        Step::Put(given, to) => Ok(CodeStep::Put(u32::from(given), to)),
    }
}

// From the surrogates on there is no backslash, white space, escape, brace or digit: what is not refused stands for itself.
#[tactic(auto, unfolding(eon_spec::specs::Unquote::unescape))]
fn no_scalar(mode: Mode, c: u32) -> Result<CodeStep, Reason>
    requires above { 0xD800 ≤ c }
    requires below { c < 0x200000 }
    ensures step { (s : List ℕ) → reads_by mode (c ∷ s) ≡ onward_code result s }
    ensures below { PutsBelow 0x200000 result }
{
    match mode {
        Mode::Literal => Ok(CodeStep::Put(c, Mode::Literal)),
        Mode::Plain | Mode::Blanks => Ok(CodeStep::Put(c, Mode::Plain)),
        Mode::Backslash => Err(Reason::UnknownEscape),
        Mode::Unicode => Err(Reason::NoBrace),
        Mode::Digits(_) => Err(Reason::ForeignCharacter),
    }
}
