// Where unescaping stands, and what the next character does there.
ghost use Rattle.std.specs.Prelude.{◌≡◌, List, [], ◌∷◌, ℕ};
ghost use Rattle.eon_unescape.specs.Modes.{reads_by, onward, ended};

use crate::chars::{escape, hex_digit, is_whitespace};
use crate::digits::Digits;
use eon_spec::Reason;

// Where unescaping stands: in literal or plain text, behind a backslash, in the blanks behind an escaped line feed, behind
// `\u`, or among the digits of `\u{..`.
#[derive(Clone, Copy)]
pub enum Mode {
    Literal,
    Plain,
    Backslash,
    Blanks,
    Unicode,
    Digits(Digits),
}

// What a character that is not refused does: it is taken in, or gives a character. Two names say more than an Option beside the mode.
#[derive(Clone, Copy)]
pub enum Step {
    Go(Mode),
    Put(char, Mode),
}

impl Mode {
    #[inline(always)]
    pub fn read_char(self, c: char) -> Result<Step, Reason>
        ensures { (s : List ℕ) → reads_by self (c ∷ s) ≡ onward result s }
    {
        match self {
            Mode::Literal => Ok(Step::Put(c, Mode::Literal)),
            Mode::Plain => Ok(in_plain(c)),
            Mode::Backslash => in_backslash(c),
            Mode::Blanks => Ok(in_blanks(c)),
            Mode::Unicode => in_unicode(c),
            Mode::Digits(digits) => in_digits(digits, c),
        }
    }

    // The text ends.
    #[tactic(auto, unfolding(eon_spec::specs::Unquote::unescape))]
    pub fn at_end(self) -> Result<(), Reason>
        ensures { reads_by self [] ≡ ended result }
    {
        match self {
            Mode::Literal | Mode::Plain | Mode::Blanks => Ok(()),
            Mode::Backslash => Err(Reason::EndsInBackslash),
            Mode::Unicode => Err(Reason::NoBrace),
            Mode::Digits(_) => Err(Reason::NotClosed),
        }
    }
}

#[tactic(auto, unfolding(eon_spec::specs::Unquote::unescape))]
#[inline(always)]
fn in_plain(c: char) -> Step
    ensures { (s : List ℕ) → reads_by Mode.Plain (c ∷ s) ≡ onward (Ok result) s }
{
    if c == '\\' {
        return Step::Go(Mode::Backslash);
    }
    Step::Put(c, Mode::Plain)
}

#[tactic(auto, unfolding(eon_spec::specs::Unquote::unescape))]
#[inline(always)]
fn in_backslash(c: char) -> Result<Step, Reason>
    ensures { (s : List ℕ) → reads_by Mode.Backslash (c ∷ s) ≡ onward result s }
{
    match c {
        '\n' => Ok(Step::Go(Mode::Blanks)),
        'u' => Ok(Step::Go(Mode::Unicode)),
        _ => {
            let given = escape(c).ok_or(Reason::UnknownEscape)?;
            Ok(Step::Put(given, Mode::Plain))
        }
    }
}

#[tactic(auto, unfolding(eon_spec::specs::Unquote::unescape))]
#[inline(always)]
fn in_blanks(c: char) -> Step
    ensures { (s : List ℕ) → reads_by Mode.Blanks (c ∷ s) ≡ onward (Ok result) s }
{
    if is_whitespace(c) {
        return Step::Go(Mode::Blanks);
    }
    in_plain(c)
}

#[tactic(auto, unfolding(eon_spec::specs::Unquote::unescape))]
#[inline(always)]
fn in_unicode(c: char) -> Result<Step, Reason>
    ensures { (s : List ℕ) → reads_by Mode.Unicode (c ∷ s) ≡ onward result s }
{
    if c != '{' {
        return Err(Reason::NoBrace);
    }
    Ok(Step::Go(Mode::Digits(Digits::new())))
}

// Among the digits of `\u{..`, an underscore counts as none.
#[tactic(auto, using(crate::proofs::Hex::digit_more), unfolding(eon_spec::specs::Unquote::unescape))]
#[inline(always)]
fn in_digits(digits: Digits, c: char) -> Result<Step, Reason>
    ensures { (s : List ℕ) → reads_by (Mode.Digits digits) (c ∷ s) ≡ onward result s }
{
    match c {
        '}' => {
            let scalar = char::from_u32(digits.value).ok_or(Reason::NoScalarValue)?;
            Ok(Step::Put(scalar, Mode::Plain))
        }
        '_' => Ok(Step::Go(Mode::Digits(digits))),
        _ => {
            let digit = hex_digit(c).ok_or(Reason::ForeignCharacter)?;
            let more = digits.with(digit).ok_or(Reason::NinthDigit)?;
            Ok(Step::Go(Mode::Digits(more)))
        }
    }
}
