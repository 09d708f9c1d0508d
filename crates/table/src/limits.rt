//! The limits of a table, and how sizes and numbers are brought within them.
ghost use Rattle.std.specs.Prelude.{◌≡◌, Some};
ghost use Rattle.table.specs.Grid.{cut, limited};

use terms::{PLACE_LIMIT, within};

/// The most rows, and the most columns, that a table has.
pub const SIZE_LIMIT: usize = 64;

/// A height or a width as it was given, cut to what a table can have.
pub fn cut_size(size: i64) -> usize
    ensures { result ≡ cut size }
{
    size.clamp(0, SIZE_LIMIT as i64) as usize
}

/// The number, or a blank where it lies beyond the limit of a place.
pub fn limit_number(number: i64) -> Option<i64>
    ensures { result ≡ limited (Some number) }
{
    within(PLACE_LIMIT, number).then_some(number)
}
