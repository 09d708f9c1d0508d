//! What is refused before a byte is written.
ghost use Rattle.std.specs.Prelude.{◌≡◌, ◌≤◌, length, Ok, IfOk, OnOk};
ghost use Rattle.std.specs.Result.{result_and};
ghost use Rattle.lines.specs.Answers.{room_check, point_check};

use crate::coordinates::Coordinates;
use crate::page::ROOM;
use crate::unwritten::Unwritten;
use terms::{MOST_ROPES, PULL_LIMIT, first_beyond};

pub(crate) fn check_room(bytes: usize) -> Result<(), Unwritten>
    ensures value { result ≡ room_check bytes }
    ensures enough { OnOk result (320 ≤ bytes) }
{
    if bytes < ROOM {
        Err(Unwritten::Short { needed: ROOM })
    } else {
        Ok(())
    }
}

pub(crate) fn check_point(point: &[i64]) -> Result<Coordinates, Unwritten>
    ensures value { result_and result (Ok tt) ≡ point_check point.now }
    ensures numbers { IfOk result (λ p. p.numbers.now ≡ point.now) }
{
    if point.len() > MOST_ROPES {
        return Err(Unwritten::Many {
            numbers: point.len(),
        });
    }
    match first_beyond(PULL_LIMIT, point) {
        Some(place) => Err(Unwritten::Far { place }),
        None => Ok(Coordinates { numbers: point }),
    }
}
