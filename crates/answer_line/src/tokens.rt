// The tokens of a text.
use eon_spec::Refusal;
use eon_token::token_kind::next_token;
use eon_utf8::Text;
use std::fmt;
use std::fmt::{Display, Formatter};

// A text, by its tokens. They are printed as kind, start and end, a blank before each number.
#[derive(Clone, Copy)]
pub struct Tokens<'a>(Text<'a>);

impl<'a> Tokens<'a> {
    ghost use Rattle.std.specs.Prelude.{◌≡◌, IfOk, IfErr};
    ghost use Rattle.eon_spec.specs.Refused.{refusal_of};
    ghost use Rattle.eon_spec.specs.Calls.{checked, done, refused_with};

    // Refusals 1 and 2 come before the first token.
    pub fn of(text: &'a [u8]) -> Result<Self, Refusal>
        ensures text { IfOk result (λ tokens. tokens.0.str.now ≡ text.entry.now) }
        ensures refused { IfErr result (λ r. checked text.entry.now done ≡ refused_with (refusal_of r)) }
    {
        Ok(Tokens(Text::of(text)?))
    }
}

impl Display for Tokens<'_> {
    ghost use Rattle.std.specs.Prelude.{Some};
    ghost use Rattle.eon_spec.specs.Token.{tokens};
    ghost use Rattle.answer_line.specs.Printed.{tokens_text};

    ghost output = { λ x. Some (tokens_text (tokens x.0.str.now)) };

    // Each token is asked for at the end of the one before. A `loop` as in eon_reader, and for the same reason.
    fn fmt<W: fmt::Write>(&self, f: &mut Formatter<W>) -> fmt::Result {
        let text = self.0.bytes();
        let mut from = 0;
        loop {
            let token = next_token(text, from);
            let Some(kind) = token.kind else {
                return Ok(());
            };
            write!(f, " {} {} {}", u32::from(kind), token.start, token.end)?;
            from = token.end;
        }
    }
}
