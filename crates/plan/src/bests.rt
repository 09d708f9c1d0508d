//! The struct stands alone: definitions that name it can be cited from every other file.

/// What is to be bettered: the cost of the point that is held, if one is, and the floor of the pair that is held.
#[derive(Clone, Copy)]
pub(crate) struct Bests {
    pub(crate) cost: Option<i64>,
    pub(crate) floor: i128,
}
