// One character at a time.
ghost use Rattle.std.specs.Prelude.{◌≡◌, ◌<◌, IfSome};
ghost use Rattle.eon_spec.specs.Base.{elem};
ghost use Rattle.eon_spec.specs.Unquote.{lookup, escapes, hex_digit, white_space};

// What a one-character escape gives.
#[inline(always)]
pub(crate) fn escape(c: char) -> Option<char>
    ensures { result ≡ lookup c escapes }
{
    match c {
        ' ' | '"' | '/' | '\'' | '\\' | '`' | '$' => Some(c),
        'a' => Some('\x07'),
        'b' => Some('\x08'),
        'e' | 'E' => Some('\x1B'),
        'f' => Some('\x0C'),
        'n' => Some('\n'),
        'r' => Some('\r'),
        't' => Some('\t'),
        'v' => Some('\x0B'),
        _ => None,
    }
}

// The value of a hexadecimal digit.
pub(crate) fn hex_digit(c: char) -> Option<u32>
    ensures value { result ≡ hex_digit c }
    ensures below { IfSome result (λ d. d < 16) }
{
    c.to_digit(16)
}

pub(crate) fn is_whitespace(c: char) -> bool
    ensures { result ≡ elem c white_space }
{
    c.is_whitespace()
}
