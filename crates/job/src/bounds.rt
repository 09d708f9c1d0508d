//! Points and their bounds.
ghost use Rattle.std.specs.Prelude.{◌≡◌, true, length, Decides, ◌==◌};
ghost use Rattle.job.specs.Numbers.{problem_of};
ghost use Rattle.job.specs.Bounds.{clamped, is_in_bounds, InBounds, HeldInside};

use crate::numbers::Job;
use terms::first_outside;

impl Job {
    /// Whether z has a number for each rope, within its bounds.
    pub fn in_bounds(&self, z: &[i64]) -> bool
        ensures value { result ≡ is_in_bounds (problem_of self.now) z.now }
        ensures law { Decides result (InBounds (problem_of self.now) z.now) }
    {
        z.len() == self.ropes() && first_outside(&self.terms.l, &self.terms.u, z).is_none()
    }

    /// Holds each number of z inside its rope's bounds. A list of another length stays as it is, and the answer is false.
    pub fn clamp(&self, z: &mut [i64]) -> bool
        ensures value { result ≡ (length z.old == (problem_of self.now).ropes) }
        ensures after { z.new ≡ clamped (problem_of self.now) z.old }
        ensures law { result ≡ true → HeldInside (problem_of self.now) z.old z.new }
    {
        if z.len() != self.ropes() {
            return false;
        }
        for (j, x) in z.iter_mut().enumerate() {
            *x = (*x).clamp(self.terms.l[j], self.terms.u[j]);
        }
        true
    }
}
