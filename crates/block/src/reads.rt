ghost use Rattle.std.specs.Prelude.{◌≡◌, ◌+◌, ◌≤◌, length, slice_index};
ghost use Rattle.block.specs.Bytes.{le16, number_at};
ghost use Rattle.block.specs.Blocks.{bytes_of, whole_at};
ghost use Rattle.block.specs.Kinds.{kind_of};

use crate::block::Block;
use crate::kind::Kind;

/// The signed number that the four bytes at `at` write, the low byte first, if there are four.
pub fn number_at(bytes: &[u8], at: usize) -> Option<i32>
    ensures { result ≡ number_at bytes.now at }
{
    let word = bytes.get(at..)?.first_chunk::<4>()?;
    Some(i32::from_le_bytes(*word))
}

impl<'a> Block<'a> {
    /// The block `number` of a card, if the card has all of its 512 bytes.
    pub fn read(card: &'a [u8], number: u16) -> Option<Block<'a>>
        ensures { bytes_of result ≡ whole_at card.now number }
    {
        let bytes = card.get(number as usize * Block::BYTES..)?.first_chunk()?;
        Some(Block { bytes })
    }

    /// The block's 512 bytes.
    pub fn bytes(&self) -> &'a [u8]
        ensures value { result.now ≡ self.now.bytes.now }
        ensures len { length result.now ≡ 512 }
    {
        let bytes = self.bytes;
        bytes
    }

    /// The letter that names the block's section.
    pub fn letter(&self) -> char
        ensures { result ≡ slice_index self.now.bytes.now 0 }
    {
        char::from(self.bytes[0])
    }

    /// The section that the block's letter names, if it names one.
    pub fn kind(&self) -> Option<Kind>
        ensures { result ≡ kind_of (slice_index self.now.bytes.now 0) }
    {
        Kind::named(self.letter())
    }

    /// The block number.
    pub fn number(&self) -> u16
        ensures { result ≡ le16 self.now.bytes.now 2 }
    {
        self.u16_at(2)
    }

    /// The number that the two bytes at `at` write, the low byte first.
    pub(crate) fn u16_at(&self, at: usize) -> u16
        requires { at + 2 ≤ 512 }
        ensures { result ≡ le16 self.now.bytes.now at }
    {
        u16::from_le_bytes([self.bytes[at], self.bytes[at + 1]])
    }
}
