ghost use Rattle.std.specs.Prelude.{◌≡◌, MatchOption};
ghost use Rattle.std.specs.Option.{option_map};
ghost use Rattle.section.specs.Layout.{numbers_for};
ghost use Rattle.section.specs.Sections.{part_of};
ghost use Rattle.card.specs.Faults.{n_of, m_of};
ghost use Rattle.card.specs.Held.{section_on, HoldsNumbers};

use crate::sound_card::SoundCard;
use section::{Kind, Section, Sizes};

impl<'a> SoundCard<'a> {
    /// The card's bytes.
    pub fn bytes(&self) -> &'a [u8]
        ensures { result.now ≡ self.now.bytes.now }
    {
        let bytes = self.bytes;
        bytes
    }

    /// How many ropes and rows the card has: its head's two numbers.
    pub fn sizes(&self) -> Sizes
        ensures { (result.ropes ≡ n_of self.now.bytes.now) × (result.rows ≡ m_of self.now.bytes.now) }
    {
        self.sizes
    }

    /// A section of the card, or nothing where the card has none, since it has no numbers. Each of its numbers is there.
    pub fn section(&self, kind: Kind) -> Option<Section<'a>>
        ensures value { option_map part_of result ≡ section_on self.now.bytes.now kind }
        ensures numbers { HoldsNumbers self.now.bytes.now kind (option_map part_of result) }
    {
        if self.sizes.count(kind) == 0 {
            return None;
        }
        let bytes = self.bytes;
        Section::at(bytes, self.sizes.first(kind), &self.sizes)
    }
}
