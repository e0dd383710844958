// The identifier test.
ghost use Rattle.std.specs.Prelude.{◌≡◌, ◌||◌};
ghost use Rattle.std.specs.List.{list_all};
ghost use Rattle.eon_spec.specs.Base.{eq_list, codes};
ghost use Rattle.eon_spec.specs.Unquote.{is_letter, is_letter_or_digit, is_name, is_valid_identifier};

// The text is `[a-zA-Z_][a-zA-Z0-9_]*`, and no keyword.
#[tactic(auto, unfolding(eon_spec::specs::Unquote::is_valid_identifier))]
pub fn is_valid_identifier(text: &[u8]) -> bool
    ensures { result ≡ is_valid_identifier text.now }
{
    is_name(text) && !is_keyword(text)
}

// Three tests: of one pattern of three byte strings the check finds no proof.
#[tactic(auto, using(crate::proofs::Bytes::same_list))]
fn is_keyword(text: &[u8]) -> bool
    ensures { result ≡ eq_list text.now (codes "true") || eq_list text.now (codes "false") || eq_list text.now (codes "null") }
{
    text == b"true".as_slice() || text == b"false".as_slice() || text == b"null".as_slice()
}

#[tactic(auto, using(crate::proofs::Bytes::all_names))]
fn is_name(text: &[u8]) -> bool
    ensures { result ≡ is_name text.now }
{
    match text {
        [first, rest @ ..] => is_letter(*first) && all_letters_or_digits(rest),
        [] => false,
    }
}

fn all_letters_or_digits(text: &[u8]) -> bool
    ensures { result ≡ list_all is_letter_or_digit text.now }
{
    text.iter().all(|c| is_letter_or_digit(*c))
}

// As in eon_token, where it is said of classes of bytes.
fn is_letter(c: u8) -> bool
    ensures { result ≡ is_letter c }
{
    c.is_ascii_alphabetic() || c == b'_'
}

// Small letters are told first, which most are.
fn is_letter_or_digit(c: u8) -> bool
    ensures { result ≡ is_letter_or_digit c }
{
    if c.is_ascii_lowercase() || c.is_ascii_digit() || c == b'_' {
        return true;
    }
    c.is_ascii_uppercase()
}
