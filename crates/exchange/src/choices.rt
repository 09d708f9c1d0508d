//! How the working set changes.
ghost use Rattle.std.specs.Prelude.{◌≡◌};
ghost use Rattle.job.specs.Numbers.{problem_of};
ghost use Rattle.exchange.specs.Choice.{wrongness as wrongness_of, most_wrong, chosen};

use crate::members::{Choice, Side, Wrong};
use crate::rounded::Rounded;

fn wrongness(side: Side, pressure: i64) -> u64
    ensures { result ≡ wrongness_of side pressure }
{
    match side {
        Side::Lower => pressure.min(0).unsigned_abs(),
        Side::Upper => pressure.max(0).unsigned_abs(),
    }
}

impl Rounded<'_> {
    /// The most wrong multiplier, the first of equals.
    fn most_wrong(&self) -> Wrong
        ensures { result ≡ most_wrong self.now.set.members.now self.now.pressures.now }
    {
        let mut most = Wrong { size: 0, place: 0 };
        for (k, (member, pressure)) in self.set.members.iter().zip(self.pressures).enumerate() {
            let size = wrongness(member.side, *pressure);
            if size > most.size {
                most = Wrong { size, place: k };
            }
        }
        most
    }

    /// What becomes of the working set.
    pub(crate) fn choose(&self) -> Choice
        ensures { result ≡ chosen (problem_of self.now.set.job.now) self.now.set.members.now self.now.pulls.now self.now.pressures.now }
    {
        let breach = self.worst();
        if breach.ticks > 0 {
            if self.set.members.len() < self.set.job.ropes() {
                return Choice::Enter(breach.member);
            }
            return Choice::Full;
        }
        let wrong = self.most_wrong();
        if wrong.size > 0 {
            Choice::Leave(wrong.place)
        } else {
            Choice::Done
        }
    }
}
