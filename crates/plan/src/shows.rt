//! What a plan shows.
ghost use Rattle.std.specs.Prelude.{◌≡◌, length};
ghost use Rattle.calls.specs.Steps.{show_answer, shown_in};
ghost use Rattle.calls.specs.Honesty.{ShowLaw};
ghost use Rattle.calls.specs.Fairness.{FairShowLaw};
ghost use Rattle.plan.specs.View.{view};

use crate::evaluates::gap_above;
use crate::state::Plan;
use calls::{Found, Shown};
use opening::Refusal;
use reasons::check_length;
use table::Table;

impl<G: Table, A: Table> Plan<G, A> {
    /// Shows the floor, and that no point exists if a proof of that is held, else cost and gap of a held point, else that there is no point.
    ///
    /// A point that is shown is written into the list, which must have a number for each rope; otherwise, and where it is refused, the list stays.
    /// Whatever opening and whatever calls led here, what is shown is true of the numbers in force, and no lawful offer was lost.
    /// So it is whatever calls led here from a fair start, as every newly opened plan is.
    pub fn show(&self, out: &mut [i64]) -> Result<Shown, Refusal>
        ensures answer { result ≡ show_answer (view G.Table.meant A.Table.meant self.now) (length out.old) }
        ensures wrote { out.new ≡ shown_in (view G.Table.meant A.Table.meant self.now) out.old }
        ensures law { ShowLaw (view G.Table.meant A.Table.meant self.now) result out.new }
        ensures fair_law { FairShowLaw (view G.Table.meant A.Table.meant self.now) result out.new }
    {
        check_length(self.terms.ropes(), out.len())?;
        let floor = self.held_floor();
        let found = match (&self.proof, &self.point) {
            (Some(_), _) => Found::NoneExists,
            (None, Some(z)) => {
                out.copy_from_slice(z);
                let cost = self.cost_of(z);
                let gap = gap_above(floor, cost);
                Found::Point { cost, gap }
            }
            (None, None) => Found::NoPoint,
        };
        Ok(Shown { floor, found })
    }
}
