//! The walk itself.
ghost use Rattle.std.specs.Prelude.{◌≡◌, IfOk, IfErr};
ghost use Rattle.job.specs.Bounds.{InBounds};
ghost use Rattle.job.specs.Numbers.{problem_of};
ghost use Rattle.walk.specs.Laws.{Lawful, Alone, Refused};
ghost use Rattle.walk.specs.Walks.{walk_from, ended, walked, walked_to};

use crate::ends::{End, OutOfBounds, Walked};
use crate::room::Room;
use crate::searches::search;
use job::Job;

/// Makes the first move that lowers, until none does or the budget is used.
fn descend(job: &Job, z: &mut [i64], budget: u32) -> Walked
    requires { InBounds (problem_of job.now) z.old }
    ensures { ended z.new result ≡ walk_from (problem_of job.now) budget z.old }
{
    let mut room = Room::at(job, z);
    for moves in 0..budget {
        let Some(m) = search(z, &room, true) else {
            return Walked {
                moves,
                end: End::Settled,
            };
        };
        room.shift(m);
    }
    let end = match search(z, &room, false) {
        None => End::Settled,
        Some(_) => End::Spent,
    };
    Walked { moves: budget, end }
}

/// Walks down from a point inside its bounds, by at most `budget` moves, and leaves the point where the walk ends.
///
/// Each move taken is the first that lowers: fewer ticks lie outside the rows, or as many at a lower cost. So the end is never worse than the start,
/// and it never leaves the bounds. `Settled` says that no single move lowers any more, `Spent` that one does and the budget is used.
/// A refusal leaves the point as it stood.
pub fn walk(job: &Job, point: &mut [i64], budget: u32) -> Result<Walked, OutOfBounds>
    ensures value { result ≡ walked (problem_of job.now) budget point.old }
    ensures point { point.new ≡ walked_to (problem_of job.now) budget point.old }
    ensures law { IfOk result (λ w. Lawful (problem_of job.now) budget point.old point.new w) }
    ensures alone { IfOk result (λ w. Alone (problem_of job.now) budget point.old point.new w) }
    ensures refused { IfErr result (λ _. Refused (problem_of job.now) point.old point.new) }
{
    if !job.in_bounds(point) {
        return Err(OutOfBounds);
    }
    Ok(descend(job, point, budget))
}
