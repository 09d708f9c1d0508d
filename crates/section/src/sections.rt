ghost use Rattle.std.specs.Prelude.{◌≡◌, ◌^◌, ◌<◌};
ghost use Rattle.std.specs.Option.{option_map};
ghost use Rattle.section.specs.Sections.{part_of, kind_at, run_at, section_at, spot_of, value_at};
ghost use Rattle.section.specs.Numbers.{Located};

use crate::section::Section;
use crate::sizes::Sizes;
use block::{Block, Kind, number_at};

/// The byte at which number `q` of a section starts in the section's bytes.
pub fn spot_of(q: u16) -> usize
    ensures value { result ≡ spot_of q }
    ensures bound { result < 2 ^ 19 }
{
    let q = q as usize;
    q / Block::NUMBERS * Block::BYTES + 4 + q % Block::NUMBERS * 4
}

/// The section that the letter of block `first` names, if the card has that block.
fn kind_at(card: &[u8], first: u16) -> Option<Kind>
    ensures { result ≡ kind_at card.now first }
{
    Block::read(card, first)?.kind()
}

/// The blocks from `first` on, or what the card has of them.
fn run_of(card: &[u8], first: u16, blocks: u16) -> &[u8]
    ensures { result.now ≡ run_at card.now first blocks }
{
    let from = card.len().min(first as usize * Block::BYTES);
    let to = card.len().min(from + blocks as usize * Block::BYTES);
    &card[from..to]
}

impl<'a> Section<'a> {
    fn new(kind: Kind, bytes: &'a [u8], first: u16) -> Section<'a>
        ensures { part_of result ≡ record { kind = kind; bytes = bytes.now; first = first } }
    {
        match kind {
            Kind::Head => Section::Head { bytes, first },
            Kind::Curvature => Section::Curvature { bytes, first },
            Kind::Rows => Section::Rows { bytes, first },
            Kind::Costs => Section::Costs { bytes, first },
            Kind::Bounds => Section::Bounds { bytes, first },
            Kind::Limits => Section::Limits { bytes, first },
            Kind::Slip => Section::Slip { bytes, first },
        }
    }

    /// The section that starts at block `first` of a card of these sizes, named by that block's letter.
    /// Nothing where the card ends before that block does, or where the letter names no section.
    pub fn at(card: &'a [u8], first: u16, sizes: &Sizes) -> Option<Section<'a>>
        ensures value { option_map part_of result ≡ section_at card.now first sizes.now.ropes sizes.now.rows }
        ensures located { Located card.now first sizes.now.ropes sizes.now.rows (option_map part_of result) }
    {
        let kind = kind_at(card, first)?;
        let bytes = run_of(card, first, sizes.blocks(kind));
        Some(Section::new(kind, bytes, first))
    }

    /// What the section is, its bytes and the number of its first block.
    fn parts(&self) -> (Kind, &'a [u8], u16)
        ensures { part_of self.now ≡ record { kind = result.0; bytes = result.1.now; first = result.2 } }
    {
        match *self {
            Section::Head { bytes, first } => (Kind::Head, bytes, first),
            Section::Curvature { bytes, first } => (Kind::Curvature, bytes, first),
            Section::Rows { bytes, first } => (Kind::Rows, bytes, first),
            Section::Costs { bytes, first } => (Kind::Costs, bytes, first),
            Section::Bounds { bytes, first } => (Kind::Bounds, bytes, first),
            Section::Limits { bytes, first } => (Kind::Limits, bytes, first),
            Section::Slip { bytes, first } => (Kind::Slip, bytes, first),
        }
    }

    /// What the section is.
    pub fn kind(&self) -> Kind
        ensures { result ≡ (part_of self.now).kind }
    {
        self.parts().0
    }

    /// The bytes of the section's blocks.
    pub fn bytes(&self) -> &'a [u8]
        ensures { result.now ≡ (part_of self.now).bytes }
    {
        self.parts().1
    }

    /// The number of the section's first block.
    pub fn first(&self) -> u16
        ensures { result ≡ (part_of self.now).first }
    {
        self.parts().2
    }

    /// Number `q` of the section, if its bytes reach so far.
    pub fn value(&self, q: u16) -> Option<i32>
        ensures { result ≡ value_at (part_of self.now).bytes q }
    {
        number_at(self.bytes(), spot_of(q))
    }
}
