// The types that the public calls take and answer. What the calls do with them is said in specs/.
#![tactic(auto)]

ghost use Rattle.std.specs.Prelude.{◌≡◌};
ghost use Rattle.eon_spec.specs.Layout.{setting_of, text_of, default_options};

pub mod record_kind;
pub mod refusal;
pub mod token_kind;

pub use record_kind::RecordKind;
pub use refusal::{Reason, Refusal};
pub use token_kind::TokenKind;

// The most bytes of a text that is read.
pub const TEXT_MAX: usize = 65535;

// The words of a record in a table.
pub const RECORD_WORDS: usize = 5;

// A record that shares a byte with a range: its number and its span. C lends a list of these, so the layout is C's.
#[repr(C)]
#[derive(Clone, Copy)]
pub struct Hit {
    pub record: usize,
    pub start: usize,
    pub end: usize,
}

// What the two calls of a run answered, reading and then layout.
#[derive(Clone, Copy)]
pub struct Run {
    pub read: Result<usize, Refusal>,
    pub written: Result<usize, Refusal>,
}

// What the afternoon's and the evening's run answered.
#[derive(Clone, Copy)]
pub struct Runs {
    pub afternoon: Run,
    pub evening: Run,
}

// What two rows of such runs answered.
#[derive(Clone, Copy)]
pub struct Rows {
    pub first: Runs,
    pub second: Runs,
}

// The most paths that are looked up at once, and the most keys of a path.
pub const PATHS_MAX: usize = 128;

pub const KEYS_MAX: usize = 8;

// The answer of a path that reaches nothing: no record has this number. No Option, since C reads the answers.
pub const NONE: u32 = 4294967295;

// A lookup answers how many steps it took, and beside that for each path the number of a record, or NONE.
#[derive(Clone, Copy)]
pub struct Found {
    pub answer: Result<usize, Refusal>,
    pub answers: [u32; PATHS_MAX],
}

// The slice that holds an unquoted value.
#[derive(Clone, Copy, PartialEq, Eq)]
pub enum Which {
    Quoted,
    Scratch,
}

// A part of one of the two slices: where an unquoted value starts there, and how long it is.
#[derive(Clone, Copy, PartialEq, Eq)]
pub struct Part {
    pub which: Which,
    pub start: usize,
    pub len: usize,
}

// The most bytes that a setting may have.
pub const SETTING_MAX: usize = 16;

// A setting's text is the first `len` of its bytes, in fixed memory: there is no heap. Callers may give any length, so that one over the
// limit is refused by layout and not by the type.
#[derive(Clone, Copy)]
pub struct Setting {
    pub bytes: [u8; SETTING_MAX],
    pub len: usize,
}

// How to lay a document out.
#[derive(Clone, Copy)]
pub struct FormatOptions {
    pub indentation: Setting,
    pub newline: Setting,
    pub space_before_suffix_comment: Setting,
    pub key_value_separator: Setting,
    pub always_include_outer_braces: bool,
}

impl Setting {
    // A setting with these bytes. Of more than SETTING_MAX it has the length alone, and layout refuses it by 16.
    pub fn new(text: &[u8]) -> Self
        ensures { result ≡ setting_of text.now }
    {
        let len = text.len();
        let mut bytes = [0u8; SETTING_MAX];
        if SETTING_MAX < len {
            return Setting { bytes, len };
        }
        bytes[..len].copy_from_slice(text);
        Setting { bytes, len }
    }

    pub fn text(&self) -> &[u8]
        ensures { result.now ≡ text_of self.now }
    {
        &self.bytes[..self.len.min(SETTING_MAX)]
    }
}

impl Default for FormatOptions {
    ghost is_default = { λ options. options ≡ default_options };

    // Tab, line feed, one blank, `: `, and no outer braces.
    fn default() -> Self {
        FormatOptions {
            indentation: Setting::new(b"\t"),
            newline: Setting::new(b"\n"),
            space_before_suffix_comment: Setting::new(b" "),
            key_value_separator: Setting::new(b": "),
            always_include_outer_braces: false,
        }
    }
}

impl FormatOptions {
    pub fn with_indentation(mut self, indentation: Setting) -> Self
        ensures { result ≡ record self { indentation = indentation } }
    {
        self.indentation = indentation;
        self
    }

    pub fn with_newline(mut self, newline: Setting) -> Self
        ensures { result ≡ record self { newline = newline } }
    {
        self.newline = newline;
        self
    }
}
