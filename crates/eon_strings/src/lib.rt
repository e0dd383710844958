// Strings: the quotes around them (marks.rt), their values (strings.rt), and the identifier test (identifier.rt).
#![tactic(auto)]

pub mod identifier;
pub mod marks;
pub mod strings;

pub use identifier::is_valid_identifier;
pub use strings::{show, unescape_and_unquote};
