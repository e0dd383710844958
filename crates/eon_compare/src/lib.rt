// Comparison of two texts by their finished tables.
#![tactic(auto)]

pub mod records;

pub use records::compare;
