ghost use Rattle.std.specs.Prelude.{◌≡◌, ◌+◌, ◌*◌, ◌≤◌, cond, true, length, take};
ghost use Rattle.std.proofs.Math.Seq.{paste};
ghost use Rattle.std.specs.List.{flat_map};
ghost use Rattle.block.specs.Bytes.{bytes4};
ghost use Rattle.block.specs.Blocks.{block_of, Fit};
ghost use Rattle.block.specs.Kinds.{letter_of};
ghost use Rattle.block.specs.Writes.{has_block, put_block, Stands};

use crate::block::Block;
use crate::checks::sum_of;
use crate::kind::Kind;

/// Writes `part` from byte `at` on.
fn put(bytes: &mut [u8], at: usize, part: &[u8])
    requires { at + length part.now ≤ length bytes.old }
    ensures { bytes.new ≡ paste bytes.old at part.now (length part.now) }
{
    bytes[at..at + part.len()].copy_from_slice(part);
}

/// Writes up to 126 numbers.
fn put_numbers(bytes: &mut [u8], numbers: &[i32])
    requires { (length numbers.now ≤ 126) × (length bytes.old ≡ 512) }
    ensures value { bytes.new ≡ paste bytes.old 4 (flat_map bytes4 numbers.now) (length numbers.now * 4) }
    ensures fits { Fit numbers.now }
{
    for (j, number) in numbers.iter().enumerate() {
        put(bytes, 4 + j * 4, &number.to_le_bytes());
    }
}

/// Makes 512 bytes the block of up to 126 numbers, in place.
fn fill_block(bytes: &mut [u8], kind: Kind, number: u16, numbers: &[i32])
    requires { (length numbers.now ≤ 126) × (length bytes.old ≡ 512) }
    ensures value { bytes.new ≡ block_of (letter_of kind) number numbers.now }
    ensures fits { Fit numbers.now }
{
    bytes.fill(0);
    put(bytes, 0, &[kind.letter()]);
    put(bytes, 2, &number.to_le_bytes());
    put_numbers(bytes, numbers);
    let sum = sum_of(bytes);
    put(bytes, 510, &sum.to_le_bytes());
}

/// Writes block `number` of a card in its place: the block of the first 126 numbers, or of all where there are fewer.
/// It passes its check, and the numbers are read back. False where the card ends before that block does, and then the card stays as it is.
pub fn write_block(card: &mut [u8], kind: Kind, number: u16, numbers: &[i32]) -> bool
    ensures has { result ≡ has_block card.old number }
    ensures value { card.new ≡ cond result (put_block card.old number (block_of (letter_of kind) number (take 126 numbers.now))) card.old }
    ensures stands { result ≡ true → Stands card.new (letter_of kind) number numbers.now }
    ensures fits { result ≡ true → Fit (take 126 numbers.now) }
{
    let at = number as usize * Block::BYTES;
    if card.len() < at + Block::BYTES {
        return false;
    }
    let count = numbers.len().min(Block::NUMBERS);
    fill_block(
        &mut card[at..at + Block::BYTES],
        kind,
        number,
        &numbers[..count],
    );
    true
}
