// What is answered to a line, as it is printed.
ghost use Rattle.std.specs.Prelude.{Some};
ghost use Rattle.answer_line.specs.Printed.{hex_text, numbers_text, reply_text, fault_text};

use crate::tokens::Tokens;
use eon_spec::Refusal;
use eon_spec::token_kind::number_or_zero;
use std::fmt;
use std::fmt::{Display, Formatter};

// What a verb gave.
#[derive(Clone, Copy)]
pub enum Reply<'a> {
    Bytes(&'a [u8]),
    Table(&'a [u32]),
    Tokens(Tokens<'a>),
    Truth(bool),
}

// Why it gave nothing.
#[derive(Clone, Copy)]
pub enum Fault {
    BadLine,
    Refused(Refusal),
}

impl From<Refusal> for Fault {
    ghost use Rattle.std.specs.Prelude.{◌≡◌};
    ghost use Rattle.answer_line.specs.declared.reply.Fault.TheVariants.{Refused};

    ghost from_gives = { λ refusal fault. fault ≡ Refused refusal };

    fn from(refusal: Refusal) -> Fault {
        Fault::Refused(refusal)
    }
}

// Bytes as lower-case hexadecimal digits, `-` for none.
#[derive(Clone, Copy)]
struct Hex<'a>(&'a [u8]);

impl Display for Hex<'_> {
    ghost output = { λ x. Some (hex_text x.0.now) };

    fn fmt<W: fmt::Write>(&self, f: &mut Formatter<W>) -> fmt::Result {
        if self.0.is_empty() {
            return f.write_str("-");
        }
        for &byte in self.0 {
            write!(f, "{byte:02x}")?;
        }
        Ok(())
    }
}

// The words of a table, a blank before each.
#[derive(Clone, Copy)]
struct Words<'a>(&'a [u32]);

impl Display for Words<'_> {
    ghost output = { λ x. Some (numbers_text x.0.now) };

    fn fmt<W: fmt::Write>(&self, f: &mut Formatter<W>) -> fmt::Result {
        for word in self.0 {
            write!(f, " {word}")?;
        }
        Ok(())
    }
}

impl Display for Reply<'_> {
    ghost output = { λ x. Some (reply_text x) };

    fn fmt<W: fmt::Write>(&self, f: &mut Formatter<W>) -> fmt::Result {
        match *self {
            Reply::Bytes(bytes) => write!(f, "bytes {}", Hex(bytes)),
            Reply::Table(table) => write!(f, "ok{}", Words(table)),
            Reply::Tokens(tokens) => write!(f, "ok{tokens}"),
            Reply::Truth(true) => f.write_str("yes"),
            Reply::Truth(false) => f.write_str("no"),
        }
    }
}

impl Display for Fault {
    ghost output = { λ x. Some (fault_text x) };

    fn fmt<W: fmt::Write>(&self, f: &mut Formatter<W>) -> fmt::Result {
        match *self {
            Fault::BadLine => f.write_str("error: bad line"),
            Fault::Refused(Refusal { reason, start, end }) => {
                let number = reason.number();
                let expected = number_or_zero(reason.expected());
                let found = number_or_zero(reason.found());
                write!(f, "refused {number} {start} {end} {expected} {found}")
            }
        }
    }
}
