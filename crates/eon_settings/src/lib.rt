// Settings as layout takes them.
#![tactic(auto)]

pub mod check;

pub use check::good_settings;
