ghost use Rattle.std.specs.Prelude.{◌≡◌};
ghost use Rattle.block.specs.Blocks.{check_of};
ghost use Rattle.card.specs.Cards.{head_of};

use block::{Block, Kind, write_block};

/// A case tried by hand: the head of a card of two ropes and one row has check sum 91.
pub fn tried_head_sum() -> u16
    ensures value { result ≡ check_of (head_of 2 1) }
    ensures tried { result ≡ 91 }
{
    let mut card = [0; Block::BYTES];
    write_block(&mut card, Kind::Head, 0, &[2, 1]);
    Block::read(&card, 0).unwrap().sum()
}
