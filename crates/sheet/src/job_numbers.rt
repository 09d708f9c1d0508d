//! The numbers of a job as its card is to hold them.
use crate::card_job::{MOST_BOUNDS, MOST_LIMITS};
use arrayvec::ArrayVec;
use terms::{MOST_ROPES, MOST_SQUARE, MOST_WEIGHTS};

/// The numbers of the sections after the head, in fixed places.
#[derive(Drop)]
pub(crate) struct JobNumbers {
    pub(crate) curvature: ArrayVec<i32, MOST_SQUARE>,
    pub(crate) rows: ArrayVec<i32, MOST_WEIGHTS>,
    pub(crate) costs: ArrayVec<i32, MOST_ROPES>,
    pub(crate) bounds: ArrayVec<i32, MOST_BOUNDS>,
    pub(crate) limits: ArrayVec<i32, MOST_LIMITS>,
    pub(crate) slip: ArrayVec<i32, MOST_SQUARE>,
}
