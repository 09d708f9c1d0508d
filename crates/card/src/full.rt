ghost use Rattle.std.specs.Prelude.{◌≡◌, ◌*◌, length};
ghost use Rattle.section.specs.Layout.{blocks_in};

use section::Sizes;

/// The bytes of a card, as many as its sizes ask for.
#[derive(Clone, Copy)]
pub(crate) struct Full<'a> {
    pub(crate) card: &'a [u8],
    pub(crate) sizes: Sizes,
    ghost full: { length card.now ≡ blocks_in sizes.ropes sizes.rows * 512 },
}
