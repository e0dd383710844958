// Why and where a call refuses. docs/REFUSALS.md says when, and at which place.
ghost use Rattle.std.specs.Prelude.{◌≡◌};
ghost use Rattle.std.specs.Option.{option_map_or};
ghost use Rattle.eon_spec.specs.Token.{kind_number};
ghost use Rattle.eon_spec.specs.Refused.{number_of, expected_of, found_of};

use crate::token_kind::TokenKind;

// Why a call refuses, in the order of the numbers that include/eon.h gives, from 1 on.
#[derive(Clone, Copy, PartialEq, Eq)]
pub enum Reason {
    Overlong,
    Garbled,
    Stray,
    TooDeep,
    MissingValue,
    UnbalancedList,
    UnbalancedBrace,
    UnbalancedParen,
    Nameless,
    NoValue,
    Mismatch {
        expected: TokenKind,
        found: TokenKind,
    },
    CutOff {
        expected: TokenKind,
    },
    Surplus,
    NoSpace,
    Stale,
    BadSettings,
    NoOpeningQuote,
    NoClosingQuote,
    LineBreak,
    EndsInBackslash,
    UnknownEscape,
    NoBrace,
    NinthDigit,
    ForeignCharacter,
    NotClosed,
    NoScalarValue,
    NoByte,
    NoPaths,
}

impl Reason {
    // The number of the papers and of include/eon.h.
    pub fn number(self) -> u32
        ensures { result ≡ number_of self }
    {
        match self {
            Reason::Overlong => 1,
            Reason::Garbled => 2,
            Reason::Stray => 3,
            Reason::TooDeep => 4,
            Reason::MissingValue => 5,
            Reason::UnbalancedList => 6,
            Reason::UnbalancedBrace => 7,
            Reason::UnbalancedParen => 8,
            Reason::Nameless => 9,
            Reason::NoValue => 10,
            Reason::Mismatch {
                expected: _,
                found: _,
            } => 11,
            Reason::CutOff { expected: _ } => 12,
            Reason::Surplus => 13,
            Reason::NoSpace => 14,
            Reason::Stale => 15,
            Reason::BadSettings => 16,
            Reason::NoOpeningQuote => 17,
            Reason::NoClosingQuote => 18,
            Reason::LineBreak => 19,
            Reason::EndsInBackslash => 20,
            Reason::UnknownEscape => 21,
            Reason::NoBrace => 22,
            Reason::NinthDigit => 23,
            Reason::ForeignCharacter => 24,
            Reason::NotClosed => 25,
            Reason::NoScalarValue => 26,
            Reason::NoByte => 27,
            Reason::NoPaths => 28,
        }
    }

    // The token kind that was expected, if one is named. The papers and C tell its number, and 0 if there is none.
    pub fn expected(self) -> Option<TokenKind>
        ensures { option_map_or kind_number result 0 ≡ expected_of self }
    {
        match self {
            Reason::Mismatch { expected, found: _ } => Some(expected),
            Reason::CutOff { expected } => Some(expected),
            _ => None,
        }
    }

    // The token kind that was found, if one is named.
    pub fn found(self) -> Option<TokenKind>
        ensures { option_map_or kind_number result 0 ≡ found_of self }
    {
        match self {
            Reason::Mismatch { expected: _, found } => Some(found),
            _ => None,
        }
    }
}

// A refusal, and its place in bytes.
#[derive(Clone, Copy, PartialEq, Eq)]
pub struct Refusal {
    pub reason: Reason,
    pub start: usize,
    pub end: usize,
}

impl Refusal {
    // A refusal at a place of no length: 0, where the papers say "0, 0".
    pub fn new(reason: Reason, at: usize) -> Self
        ensures { result ≡ record { reason = reason; start = at; end = at } }
    {
        Refusal {
            reason,
            start: at,
            end: at,
        }
    }
}
