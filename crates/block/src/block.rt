ghost use Rattle.std.specs.Prelude.{◌≡◌, ℕ, ◌<◌, length, slice_index};

/// A block of a card, lent: 512 bytes, whatever they hold.
#[derive(Clone, Copy)]
pub struct Block<'a> {
    pub(crate) bytes: &'a [u8; 512],
    ghost long: { length bytes.now ≡ 512 },
    ghost small: { (k : ℕ) → slice_index bytes.now k < 256 },
}

impl<'a> Block<'a> {
    /// How many bytes a block has.
    pub const BYTES: usize = 512;

    /// How many numbers a block holds.
    pub const NUMBERS: usize = 126;
}
