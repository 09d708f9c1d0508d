ghost use Rattle.std.specs.Prelude.{◌≡◌, ◌*◌, length};

use section::Sizes;

/// The numbers of the sections of a card that follow its head, lent.
#[derive(Clone, Copy)]
pub struct Numbers<'a> {
    pub curvature: &'a [i32],
    pub rows: &'a [i32],
    pub costs: &'a [i32],
    pub bounds: &'a [i32],
    pub limits: &'a [i32],
    pub slip: &'a [i32],
}

/// The sizes of a job and the numbers of each section of its card, lent, as many as the sizes ask for.
#[derive(Clone, Copy)]
pub struct Contents<'a> {
    pub(crate) sizes: Sizes,
    pub(crate) numbers: Numbers<'a>,
    ghost square: { length numbers.curvature.now ≡ sizes.ropes * sizes.ropes },
    ghost lined: { length numbers.rows.now ≡ sizes.rows * sizes.ropes },
    ghost priced: { length numbers.costs.now ≡ sizes.ropes },
    ghost bounded: { length numbers.bounds.now ≡ 2 * sizes.ropes },
    ghost limited: { length numbers.limits.now ≡ 2 * sizes.rows },
    ghost slipped: { length numbers.slip.now ≡ sizes.ropes * sizes.ropes },
}
