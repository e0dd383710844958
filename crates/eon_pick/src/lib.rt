// A place picked on the screen, by a text's finished table: the record at a byte offset, and the records in a byte range.
#![tactic(auto)]

pub mod offset;
pub mod range;

pub use offset::record_at;
pub use range::records_in;
