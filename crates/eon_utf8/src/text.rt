// The texts that can be read.
ghost use Rattle.std.specs.Prelude.{◌≡◌, ◌≤◌, true, length, IfOk, IfErr};
ghost use Rattle.eon_spec.specs.Utf8.{is_utf8};
ghost use Rattle.eon_spec.specs.Refused.{refusal_of};
ghost use Rattle.eon_spec.specs.Calls.{checked, done, refused_with};

use eon_spec::{Reason, Refusal, TEXT_MAX};
use std::str;

// A text that is UTF-8, by Table 3-7, and not too long.
#[derive(Clone, Copy)]
pub struct Text<'a> {
    str: &'a str,
    ghost utf8: { is_utf8 str.now ≡ true },
    ghost short: { length str.now ≤ 65535 },
}

impl<'a> Text<'a> {
    // Refusal 1, then 2.
    pub fn of(bytes: &'a [u8]) -> Result<Self, Refusal>
        ensures text { IfOk result (λ text. text.str.now ≡ bytes.entry.now) }
        ensures refused { IfErr result (λ r. checked bytes.entry.now done ≡ refused_with (refusal_of r)) }
    {
        if TEXT_MAX < bytes.len() {
            return Err(Refusal::new(Reason::Overlong, TEXT_MAX));
        }
        match str::from_utf8(bytes) {
            Ok(str) => Ok(Text { str }),
            Err(fault) => Err(Refusal::new(Reason::Garbled, fault.valid_up_to())),
        }
    }

    pub fn bytes(self) -> &'a [u8]
        ensures same { result.now ≡ self.entry.str.now }
        ensures utf8 { is_utf8 result.now ≡ true }
        ensures short { length result.now ≤ 65535 }
    {
        self.str.as_bytes()
    }
}
