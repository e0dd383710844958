// The lines of the oracle's protocol (oracle/README.md): how they are read, what their words stand for, and what is printed.
#![tactic(auto)]

pub mod input;
pub mod reply;
pub mod tokens;
pub mod word;
