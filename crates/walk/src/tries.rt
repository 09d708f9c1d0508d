//! One move tried: the rope goes back unless the move lowers and may be made.
ghost use Rattle.std.specs.Prelude.{◌≡◌, ◌≤◌, false, ◌+ℤ◌, if◌then◌else◌, unsigned_abs};
ghost use Rattle.job.specs.Bounds.{InBounds};
ghost use Rattle.job.specs.Numbers.{problem_of};
ghost use Rattle.walk.specs.Lowering.{lowers};
ghost use Rattle.walk.specs.Moves.{after as after_move};
ghost use Rattle.walk.specs.Running.{Tracks, Tame, Movable, looks_lower};

use crate::guard::Held;
use crate::moves::Move;
use crate::room::Room;
use terms::between;

/// Changes a rope's number, and answers whether that lowers. The change stays only if it does and `may` allows it.
fn probe(spot: &mut i64, room: &Room, m: Move, may: bool) -> bool
    requires tame { Tame room.now.job.now room.now }
    requires movable { Movable room.now.job.now m }
    requires near { unsigned_abs spot.old ≤ 32768 }
    ensures value { result ≡ looks_lower room.now.job.now room.now m }
    ensures after { spot.new ≡ (if (if result then may else false) then spot.old +ℤ m.by else spot.old) }
{
    let old = Some(*spot);
    let mut held = Held { spot, old };
    *held.spot += m.by;
    let lowers = room.lowers(m);
    if lowers && may {
        held.keep();
    }
    lowers
}

/// Whether a move may be made and lowers; it is made if it does and `may` allows it.
pub(crate) fn try_move(z: &mut [i64], room: &Room, m: Move, may: bool) -> bool
    requires inside { InBounds (problem_of room.now.job.now) z.old }
    requires tracks { Tracks room.now.job.now z.old room.now }
    requires movable { Movable room.now.job.now m }
    ensures value { result ≡ lowers (problem_of room.now.job.now) z.old m }
    ensures point { z.new ≡ (if (if result then may else false) then after_move z.old m else z.old) }
{
    let job = room.job;
    let next = z[m.rope] + m.by;
    if !between(job.terms.l[m.rope], job.terms.u[m.rope], next) {
        return false;
    }
    probe(&mut z[m.rope], room, m, may)
}
