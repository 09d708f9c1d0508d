//! The job card: its first fault, and its writer.
#![tactic(auto)]

mod card_table;
mod checks;
mod contents;
mod full;
mod run;
mod sections;
mod sound_card;
mod tables;
mod tried;
mod writes;

pub use block::{Fault, Layer, Notice};
pub use card_table::CardTable;
pub use checks::{MOST_BYTES, check_card};
pub use contents::{Contents, Numbers};
pub use section::{Kind, Section, Sizes};
pub use sound_card::SoundCard;
pub use tried::tried_head_sum;
