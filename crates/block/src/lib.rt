//! The blocks that a job card is made of: 512 bytes with a letter, a block number, 126 signed numbers and a check sum.
#![tactic(auto)]

mod block;
mod checks;
mod fault;
mod kind;
mod names;
mod reads;
mod writes;

pub use block::Block;
pub use fault::{Fault, Layer, Notice};
pub use kind::Kind;
pub use names::UnknownKind;
pub use reads::number_at;
pub use writes::write_block;
