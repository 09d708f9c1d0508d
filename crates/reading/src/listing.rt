//! The struct stands alone: definitions that name it can be cited from every other file.
ghost use Rattle.std.specs.Prelude.{◌≡◌, ◌*◌, ◌≤◌, true, length};
ghost use Rattle.duality.specs.Tests.{all_within};

/// A table with no blank, whose numbers stand in a list, row by row.
#[derive(Clone, Copy)]
pub struct Listing<'a> {
    pub(crate) height: usize,
    pub(crate) width: usize,
    pub(crate) numbers: &'a [i64],
    ghost high: { height ≤ 64 },
    ghost wide: { width ≤ 64 },
    ghost full: { length numbers.now ≡ height * width },
    ghost near: { all_within 1048576 numbers.now ≡ true },
}
