ghost use Rattle.std.specs.Prelude.{◌≡◌, Ok};
ghost use Rattle.card.specs.Faults.{n_of, m_of, card_check};

use section::Sizes;

/// A card that passes its check: its bytes, lent, and its sizes. Only the check makes one.
#[derive(Clone, Copy)]
pub struct SoundCard<'a> {
    pub(crate) bytes: &'a [u8],
    pub(crate) sizes: Sizes,
    ghost passes: { card_check bytes.now ≡ Ok tt },
    ghost ropes: { sizes.ropes ≡ n_of bytes.now },
    ghost rows: { sizes.rows ≡ m_of bytes.now },
}
