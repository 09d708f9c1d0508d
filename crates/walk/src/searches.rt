//! The search for the first move that lowers: ropes up the list, sizes down the table, plus before minus.
ghost use Rattle.std.specs.Prelude.{◌≡◌, ◌<◌, if◌then◌else◌};
ghost use Rattle.job.specs.Bounds.{InBounds};
ghost use Rattle.job.specs.Numbers.{problem_of};
ghost use Rattle.walk.specs.Lowering.{lowers};
ghost use Rattle.walk.specs.Moves.{of_rope};
ghost use Rattle.walk.specs.Running.{Tracks};
ghost use Rattle.walk.specs.Walks.{first, first_move, moved};

use crate::moves::{Move, SIZES};
use crate::room::Room;
use crate::tries::try_move;

/// The first move of a rope that lowers; it is made if `may` allows it.
fn try_rope(z: &mut [i64], room: &Room, rope: usize, may: bool) -> Option<Move>
    requires inside { InBounds (problem_of room.now.job.now) z.old }
    requires tracks { Tracks room.now.job.now z.old room.now }
    requires rope { rope < (problem_of room.now.job.now).ropes }
    ensures value { result ≡ first (lowers (problem_of room.now.job.now) z.old) (of_rope rope) }
    ensures point { z.new ≡ (if may then moved result z.old else z.old) }
{
    for size in SIZES {
        for by in [size, -size] {
            let m = Move { rope, by };
            if try_move(z, room, m, may) {
                return Some(m);
            }
        }
    }
    None
}

/// The first move that lowers; it is made if `may` allows it.
pub(crate) fn search(z: &mut [i64], room: &Room, may: bool) -> Option<Move>
    requires inside { InBounds (problem_of room.now.job.now) z.old }
    requires tracks { Tracks room.now.job.now z.old room.now }
    ensures value { result ≡ first_move (problem_of room.now.job.now) z.old }
    ensures point { z.new ≡ (if may then moved result z.old else z.old) }
{
    for rope in 0..room.job.ropes() {
        let found = try_rope(z, room, rope, may);
        if found.is_some() {
            return found;
        }
    }
    None
}
