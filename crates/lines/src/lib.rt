//! What the program shows of a plan, as lines of text, byte for byte, in a list of bytes that the caller lends.
//!
//! specs/ has the text of a sheet and of a refusal; docs/TEXT.md has it in words.
#![tactic(auto)]

mod checks;
mod coordinates;
mod page;
mod unwritten;
mod writes;

pub use page::ROOM;
pub use unwritten::Unwritten;
pub use writes::{write_refusal, write_sheet};
