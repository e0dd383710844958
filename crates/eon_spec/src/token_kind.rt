// The kinds of tokens (TokenKind of token_kind.rs).
ghost use Rattle.std.specs.Prelude.{◌≡◌};
ghost use Rattle.std.specs.Option.{option_map_or};
ghost use Rattle.eon_spec.specs.Token.{kind_number};

// In the order of the original's enum, behind `Invalid` for a character that begins no token.
#[derive(Clone, Copy, PartialEq, Eq)]
pub enum TokenKind {
    Invalid,
    Comment,
    OpenList,
    CloseList,
    OpenBrace,
    CloseBrace,
    OpenParen,
    CloseParen,
    Colon,
    Comma,
    Identifier,
    Number,
    DoubleQuotedString,
    SingleQuotedString,
    MultilineBasicString,
    MultilineLiteralString,
}

// The numbers of include/eon.h.
impl From<TokenKind> for u32 {
    ghost use Rattle.eon_spec.specs.Token.{kind_number};

    ghost from_gives = { λ k n. n ≡ kind_number k };

    fn from(kind: TokenKind) -> u32 {
        kind as u32
    }
}

// The number that the papers and C tell of a kind: 0, if there is none.
pub fn number_or_zero(kind: Option<TokenKind>) -> u32
    ensures { result ≡ option_map_or kind_number kind 0 }
{
    kind.map_or(0, u32::from)
}
