//! Amendments: new numbers for a row or a rope, and what they leave of what is held.
ghost use Rattle.std.specs.Prelude.{◌≡◌, true};
ghost use Rattle.terms.specs.Numbers.{ropes_of, rows_of};
ghost use Rattle.duality.specs.Lists.{places};
ghost use Rattle.table.specs.Grid.{Grid};
ghost use Rattle.evaluate.specs.Stated.{problem_of};
ghost use Rattle.evaluate.specs.Findings.{feasible};
ghost use Rattle.evaluate.specs.Floors.{refuting};
ghost use Rattle.calls.specs.Steps.{standing, was_dropped, amend_answer, amended};
ghost use Rattle.plan.specs.Inside.{held_within};
ghost use Rattle.plan.specs.View.{held, view};

use crate::state::Plan;
use arrayvec::ArrayVec;
use calls::{Amendment, Dropped};
use evaluate::{Terms, is_feasible, refutes};
use opening::Refusal;
use reasons::amend_terms;
use table::Table;
use terms::{MOST_ROPES, MOST_ROWS};

/// Drops a held point that now breaks a row or a bound, and says whether it did.
fn drop_broken<T: Table>(
    a: &T,
    terms: &Terms,
    point: &mut Option<ArrayVec<i64, MOST_ROPES>>,
) -> bool
    requires { held_within (ropes_of terms.now) 32768 point.old ≡ true }
    ensures value { (g : Grid) → held point.new
        ≡ standing (λ x. feasible (problem_of g (T.Table.meant a.now) terms.now) (places x)) (held point.old) }
    ensures dropped { result ≡ was_dropped (held point.old) (held point.new) }
    ensures pulls { held_within (ropes_of terms.now) 32768 point.new ≡ true }
{
    point
        .take_if(|z| is_feasible(a, terms, z) == Some(false))
        .is_some()
}

/// Drops a held proof that no longer refutes, and says whether it did.
fn drop_stale<T: Table>(a: &T, terms: &Terms, proof: &mut Option<ArrayVec<i64, MOST_ROWS>>) -> bool
    requires { held_within (rows_of terms.now) 16777216 proof.old ≡ true }
    ensures value { (g : Grid) → held proof.new
        ≡ standing (λ x. refuting (problem_of g (T.Table.meant a.now) terms.now) (places x)) (held proof.old) }
    ensures dropped { result ≡ was_dropped (held proof.old) (held proof.new) }
    ensures refuters { held_within (rows_of terms.now) 16777216 proof.new ≡ true }
{
    proof
        .take_if(|y| refutes(a, terms, y) == Some(false))
        .is_some()
}

impl<G: Table, A: Table> Plan<G, A> {
    /// Sets the limits of a row, the bounds of a rope, or the linear cost of one.
    ///
    /// The held point is dropped exactly if it now breaks something, the held proof exactly if it no longer holds, and the pair stays.
    /// A refusal, where there is no such row or rope or a number is not allowed, leaves the plan as it stood.
    pub fn amend(&mut self, amendment: Amendment) -> Result<Dropped, Refusal>
        ensures answer { result ≡ amend_answer (view G.Table.meant A.Table.meant self.old) amendment }
        ensures after { view G.Table.meant A.Table.meant self.new ≡ amended (view G.Table.meant A.Table.meant self.old) amendment }
    {
        amend_terms(&mut self.terms, amendment)?;
        Ok(Dropped {
            point: drop_broken(&self.a, &self.terms, &mut self.point),
            proof: drop_stale(&self.a, &self.terms, &mut self.proof),
        })
    }
}
