ghost use Rattle.std.specs.Prelude.{◌≡◌, ◌+◌, ◌*◌, ◌≤◌, length, IfOk, OnOk, MatchOption, ◌&&◌, false, int_le, pos};
ghost use Rattle.block.specs.Bytes.{num};
ghost use Rattle.block.specs.Blocks.{block_at};
ghost use Rattle.section.specs.Layout.{blocks_for};
ghost use Rattle.card.specs.Faults.{n_of, m_of, length_check, size_check, first_check, full_check, run_check, section_check, sections_check, card_check, verdict};
ghost use Rattle.block.specs.Kinds.{letter_of};
ghost use Rattle.block.specs.Laws.{Rightly};
ghost use Rattle.card.specs.Faulty.{Says};
ghost use Rattle.card.specs.Laws.{Exact};

use crate::full::Full;
use crate::sound_card::SoundCard;
use block::{Block, Fault, number_at};
use section::{Kind, Sizes, blocks_for};

/// The most bytes that a card has: 15 blocks, as 16 ropes and 32 rows ask for.
pub const MOST_BYTES: usize = 15 * Block::BYTES;

/// Block `number` of a card that has it.
fn block_at<'a>(card: &'a [u8], number: u16) -> Block<'a>
    requires { number * 512 + 512 ≤ length card.now }
    ensures { result.bytes.now ≡ block_at card.now number }
{
    Block::read(card, number).unwrap()
}

/// Whether a length is 1 to 15 whole blocks.
fn check_length(len: usize) -> Result<(), Fault>
    ensures value { result ≡ length_check len }
    ensures enough { OnOk result (512 ≤ len) }
{
    if (Block::BYTES..=MOST_BYTES).contains(&len) && len % Block::BYTES == 0 {
        Ok(())
    } else {
        Err(Fault::Length { bytes: len })
    }
}

/// A size that a head gives, if it is a number of two bytes.
fn size_at(head: &Block, at: usize) -> Option<u16>
    requires { at + 4 ≤ 512 }
    ensures { MatchOption result ((int_le (pos 0) (num head.now.bytes.now at) && int_le (num head.now.bytes.now at) (pos 65535)) ≡ false)
        (λ k. num head.now.bytes.now at ≡ pos k) }
{
    u16::try_from(number_at(head.bytes(), at)?).ok()
}

/// The sizes that a head gives, if they are in range.
fn sizes_in(head: &Block) -> Result<Sizes, Fault>
    ensures value { verdict result ≡ size_check head.now.bytes.now }
    ensures sizes { IfOk result (λ s. (s.ropes ≡ n_of head.now.bytes.now) × (s.rows ≡ m_of head.now.bytes.now)) }
{
    let (Some(ropes), Some(rows)) = (size_at(head, 4), size_at(head, 8)) else {
        return Err(Fault::Sizes { block: 0 });
    };
    Sizes::new(ropes, rows).ok_or(Fault::Sizes { block: 0 })
}

/// The sizes that a head gives, if it passes: its check sum, its name, its sizes, its spare bytes.
fn check_head(head: &Block) -> Result<Sizes, Fault>
    ensures value { verdict result ≡ first_check head.now.bytes.now }
    ensures sizes { IfOk result (λ s. (s.ropes ≡ n_of head.now.bytes.now) × (s.rows ≡ m_of head.now.bytes.now)) }
{
    head.check_sum(0)?;
    head.check_name(Kind::Head, 0)?;
    let sizes = sizes_in(head)?;
    head.check_spare(0, 2)?;
    Ok(sizes)
}

/// A card of the length that its sizes ask for.
fn check_full<'a>(card: &'a [u8], sizes: Sizes) -> Result<Full<'a>, Fault>
    ensures value { verdict result ≡ full_check (length card.now) sizes.ropes sizes.rows }
    ensures same { IfOk result (λ full. (full.card.now ≡ card.now) × (full.sizes ≡ sizes)) }
{
    if card.len() == sizes.card_bytes() {
        Ok(Full { card, sizes })
    } else {
        Err(Fault::Length { bytes: card.len() })
    }
}

/// The first fault of the blocks that hold `count` numbers of one section.
fn check_run(card: &[u8], kind: Kind, first: u16, count: u16) -> Result<(), Fault>
    requires { ((first + blocks_for count) * 512 ≤ length card.now) × ((first ≤ 26) × (count ≤ 512)) }
    ensures { result ≡ run_check card.now (letter_of kind) first count (blocks_for count) }
{
    let mut left = count;
    for number in first..first + blocks_for(count) {
        let used = left.min(Block::NUMBERS as u16);
        block_at(card, number).check(kind, number, used as u8)?;
        left -= used;
    }
    Ok(())
}

impl Full<'_> {
    /// The first fault of a section's blocks.
    fn check_section(&self, kind: Kind) -> Result<(), Fault>
        ensures { result ≡ section_check self.now.card.now kind self.now.sizes.ropes self.now.sizes.rows }
    {
        let first = self.sizes.first(kind);
        check_run(self.card, kind, first, self.sizes.count(kind))
    }

    /// The first fault of the blocks after the head.
    fn check_sections(&self) -> Result<(), Fault>
        ensures { result ≡ sections_check self.now.card.now self.now.sizes.ropes self.now.sizes.rows }
    {
        for kind in Kind::AFTER_HEAD {
            self.check_section(kind)?;
        }
        Ok(())
    }
}

/// The card as one that passes its check, or the first fault of bytes that are none.
/// A fault is named exactly where it is the first, and exactly the cards that are made of sizes in range and of numbers pass.
pub fn check_card<'a>(card: &'a [u8]) -> Result<SoundCard<'a>, Fault>
    ensures value { verdict result ≡ card_check card.now }
    ensures same { IfOk result (λ s. s.bytes.now ≡ card.now) }
    ensures rightly { Rightly (Says card.now) (verdict result) }
    ensures exact { Exact card.now (verdict result) }
{
    check_length(card.len())?;
    let sizes = check_head(&block_at(card, 0))?;
    check_full(card, sizes)?.check_sections()?;
    Ok(SoundCard { bytes: card, sizes })
}
