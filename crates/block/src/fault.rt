ghost use Rattle.std.specs.Prelude.{◌≡◌, Some};
ghost use Rattle.block.specs.Notices.{at_card, notice_of, name_of, notice_text, fault_text};

use std::error::Error;
use std::fmt;

/// Who meets a refusal: the reader of a card, the reader of a table, or the plan.
#[derive(Clone, Copy, PartialEq, Eq, Debug)]
pub enum Layer {
    Card,
    Table,
    Plan,
}

/// A refusal as it is told: its number, its layer and two places, 0 where there is none.
#[derive(Clone, Copy, PartialEq, Eq, Debug)]
pub struct Notice {
    pub number: u8,
    pub layer: Layer,
    pub first: usize,
    pub second: usize,
}

/// What is wrong with a card, and where.
#[derive(Clone, Copy, PartialEq, Eq, Debug)]
pub enum Fault {
    /// The card has a wrong length, this many bytes.
    Length { bytes: usize },
    /// The check sum of this block is not that of its bytes.
    CheckSum { block: u16 },
    /// This block has another letter or another block number.
    Name { block: u16 },
    /// The sizes in this block, the head, are out of range.
    Sizes { block: u16 },
    /// In this block, this spare byte is not 0.
    Spare { block: u16, byte: u16 },
    /// A list for a written card is shorter than these bytes.
    Short { needed: usize },
}

/// A notice by the reader of a card.
fn at_card(number: u8, first: usize, second: usize) -> Notice
    ensures { result ≡ at_card number first second }
{
    Notice {
        number,
        layer: Layer::Card,
        first,
        second,
    }
}

impl Fault {
    /// The fault's number, layer and places.
    pub fn notice(&self) -> Notice
        ensures { result ≡ notice_of self.now }
    {
        match *self {
            Fault::Length { bytes } => at_card(1, bytes, 0),
            Fault::CheckSum { block } => at_card(2, block as usize, 0),
            Fault::Name { block } => at_card(3, block as usize, 0),
            Fault::Sizes { block } => at_card(4, block as usize, 0),
            Fault::Spare { block, byte } => at_card(5, block as usize, byte as usize),
            Fault::Short { needed } => at_card(6, needed, 0),
        }
    }
}

impl fmt::Display for Layer {
    ghost output = { λ layer. Some (name_of layer) };

    fn fmt<W: fmt::Write>(&self, f: &mut fmt::Formatter<W>) -> fmt::Result {
        f.write_str(match self {
            Layer::Card => "card",
            Layer::Table => "table",
            Layer::Plan => "plan",
        })
    }
}

/// A notice as programs print it: its number and its first place.
impl fmt::Display for Notice {
    ghost output = { λ notice. Some (notice_text notice) };

    fn fmt<W: fmt::Write>(&self, f: &mut fmt::Formatter<W>) -> fmt::Result {
        let Notice { number, first, .. } = *self;
        write!(f, "refused {number} at {first}")
    }
}

/// A fault as programs print it: its notice.
impl fmt::Display for Fault {
    ghost output = { λ fault. Some (fault_text fault) };

    fn fmt<W: fmt::Write>(&self, f: &mut fmt::Formatter<W>) -> fmt::Result {
        write!(f, "{}", self.notice())
    }
}

impl Error for Fault {}
