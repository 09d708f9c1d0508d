//! The sizes of a plan.
ghost use Rattle.std.specs.Prelude.{◌≡◌, ◌≤◌};
ghost use Rattle.plan.specs.View.{view};

use crate::state::Plan;
use table::Table;

impl<G: Table, A: Table> Plan<G, A> {
    /// How many ropes there are, at most 16.
    pub fn ropes(&self) -> usize
        ensures value { result ≡ (view G.Table.meant A.Table.meant self.now).numbers.ropes }
        ensures few { result ≤ 16 }
    {
        self.terms.ropes()
    }
}
