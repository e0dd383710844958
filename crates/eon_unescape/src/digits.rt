// The digits of `\u{..`.
ghost use Rattle.std.specs.Prelude.{◌≡◌, ◌+◌, ◌*◌, ◌^◌, ◌<◌, ◌≤◌, ◌↔◌, IfSome, IsNone};

// How many digits there are so far, and their number. The count is a word, so that each part of a `Mode` is stored and loaded whole: of two
// u32 an escape took twice the time.
#[derive(Clone, Copy)]
pub struct Digits {
    pub(crate) count: usize,
    pub(crate) value: u32,
    ghost few: { count ≤ 8 },
    ghost fits: { value < 2 ^ (4 * count) },
}

impl Digits {
    // None so far: `new`, as the library's collections have it.
    pub fn new() -> Self
        ensures none { result.count ≡ 0 }
        ensures zero { result.value ≡ 0 }
    {
        Digits { count: 0, value: 0 }
    }

    // With a digit more, unless there are eight. One by one, as the characters come: the library's parsing takes a text whole.
    pub fn with(self, digit: u32) -> Option<Self>
        requires { digit < 16 }
        ensures ninth { IsNone result ↔ (8 ≤ self.count) }
        ensures count { IfSome result (λ d. d.count ≡ self.count + 1) }
        ensures value { IfSome result (λ d. d.value ≡ self.value * 16 + digit) }
    {
        if self.count < 8 {
            return Some(Digits {
                count: self.count + 1,
                value: self.value * 16 + digit,
            });
        }
        None
    }
}
