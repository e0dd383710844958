// The tokens of a text: the scanner, and the cursor over its tokens.
#![tactic(auto)]

pub mod cursor;
pub mod token_kind;
