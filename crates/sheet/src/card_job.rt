//! A job as it is read off a card.
use arrayvec::ArrayVec;
use card::CardTable;
use terms::{MOST_ROPES, MOST_ROWS, MOST_SQUARE};

/// The most numbers of section B: a lower and an upper bound for each rope.
pub(crate) const MOST_BOUNDS: usize = 2 * MOST_ROPES;

/// The most numbers of section R: a lower and an upper limit for each row.
pub(crate) const MOST_LIMITS: usize = 2 * MOST_ROWS;

/// The lists of a job as the sections of its card hold them, in fixed places: the lower bounds and then the upper ones, and so the limits.
#[derive(Drop)]
pub(crate) struct CardLists {
    pub(crate) costs: ArrayVec<i64, MOST_ROPES>,
    pub(crate) bounds: ArrayVec<i64, MOST_BOUNDS>,
    pub(crate) limits: ArrayVec<i64, MOST_LIMITS>,
    pub(crate) slip: ArrayVec<i64, MOST_SQUARE>,
}

/// A job on a card: tables that are read in place out of the card's bytes, and the lists.
#[derive(Drop)]
pub struct CardJob<'a> {
    pub g: CardTable<'a>,
    pub a: CardTable<'a>,
    pub(crate) lists: CardLists,
}
