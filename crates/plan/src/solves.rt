//! Solve: the exchange and the walk propose, and what they find is offered like anyone's.
ghost use Rattle.std.specs.Prelude.{◌≡◌, true, IfOk};
ghost use Rattle.std.specs.Option.{unwrap_or};
ghost use Rattle.job.specs.Bounds.{is_in_bounds};
ghost use Rattle.job.specs.Numbers.{problem_of};
ghost use Rattle.exchange.specs.Runs.{exchanged, report_of};
ghost use Rattle.walk.specs.Laws.{Lawful, Alone};
ghost use Rattle.walk.specs.Walks.{ended, walk_from};
ghost use Rattle.calls.specs.Offers.{took_all};
ghost use Rattle.calls.specs.Steps.{unless};
ghost use Rattle.calls.specs.Histories.{after, solve as a_solve};
ghost use Rattle.calls.specs.Solving.{solve_refusal, written, found_offers, last_found, solve_offers, report, LawfulSolve};
ghost use Rattle.plan.specs.Solves.{ReadOf};
ghost use Rattle.plan.specs.Standing.{Stands};
ghost use Rattle.plan.specs.View.{view};

use crate::bests::Bests;
use crate::evaluates::copied;
use crate::state::Plan;
use arrayvec::ArrayVec;
use calls::Report;
use exchange::{End, Exchange, Report as Exchanged, end_after};
use job::Job;
use opening::Refusal;
use reading::read_job;
use table::Table;
use terms::MOST_ROPES;
use walk::{Walked, walk};

const MOST_STEPS: u64 = 1_000;

const MOST_MOVES: u64 = 1_000_000;

/// What a solve may use: steps of the exchange and moves of the walk.
#[derive(Clone, Copy)]
struct Budgets {
    steps: usize,
    moves: u32,
}

impl Budgets {
    fn checked(steps: u64, moves: u64) -> Result<Budgets, Refusal>
        ensures { result ≡ unless (solve_refusal steps moves) (record { steps = steps; moves = moves }) }
    {
        if steps > MOST_STEPS {
            return Err(Refusal::OfferLimit { index: 0 });
        }
        if moves > MOST_MOVES {
            return Err(Refusal::OfferLimit { index: 1 });
        }
        Ok(Budgets {
            steps: steps as usize,
            moves: moves as u32,
        })
    }
}

/// Walks from a point inside its bounds.
fn walk_down(job: &Job, at: &mut [i64], budget: u32) -> Walked
    requires { is_in_bounds (problem_of job.now) at.old ≡ true }
    ensures value { ended at.new result ≡ walk_from (problem_of job.now) budget at.old }
    ensures law { Lawful (problem_of job.now) budget at.old at.new result }
    ensures alone { Alone (problem_of job.now) budget at.old at.new result }
{
    walk(job, at, budget).unwrap()
}

impl<G: Table, A: Table> Plan<G, A> {
    /// Runs the exchange and offers what each step finds; the last point found stands in the list then.
    fn run_exchange(
        &mut self,
        job: &Job,
        bests: &mut Bests,
        at: &mut [i64],
        budget: usize,
    ) -> Exchanged
        requires same { ReadOf (view G.Table.meant A.Table.meant self.old) job.now }
        requires stands { Stands (view G.Table.meant A.Table.meant self.old) bests.old }
        requires inside { is_in_bounds (problem_of job.now) at.old ≡ true }
        ensures report { result ≡ report_of (exchanged (problem_of job.now) budget) }
        ensures after { view G.Table.meant A.Table.meant self.new
            ≡ took_all (view G.Table.meant A.Table.meant self.old)
            (found_offers (view G.Table.meant A.Table.meant self.old).numbers (exchanged (problem_of job.now) budget).offers) }
        ensures stands { Stands (view G.Table.meant A.Table.meant self.new) bests.new }
        ensures last { at.new
            ≡ last_found (view G.Table.meant A.Table.meant self.old).numbers at.old (exchanged (problem_of job.now) budget).offers }
        ensures inside { is_in_bounds (problem_of job.now) at.new ≡ true }
    {
        let mut exchange = Exchange::new(job);
        // exchange::run has this loop too: with a closure it would have to require that it may be called, and no public function requires anything.
        for k in 0..budget {
            let step = exchange.step();
            self.offer_step(job, bests, step, at);
            if let Some(end) = end_after(step) {
                return exchange.report(k + 1, end);
            }
        }
        exchange.report(budget, End::Spent)
    }

    /// Puts the held point into the list, if there is one.
    fn start_from(&self, at: &mut [i64])
        requires { is_in_bounds (written (view G.Table.meant A.Table.meant self.now)) at.old ≡ true }
        ensures start { at.new ≡ unwrap_or (view G.Table.meant A.Table.meant self.now).point at.old }
        ensures inside { is_in_bounds (written (view G.Table.meant A.Table.meant self.now)) at.new ≡ true }
    {
        if let Some(point) = &self.point {
            at.copy_from_slice(point);
        }
    }

    /// The exchange, then the walk, then its end.
    fn propose(&mut self, budgets: Budgets) -> Report
        ensures report { result ≡ report (view G.Table.meant A.Table.meant self.old) budgets.steps budgets.moves }
        ensures after { view G.Table.meant A.Table.meant self.new
            ≡ took_all (view G.Table.meant A.Table.meant self.old) (solve_offers (view G.Table.meant A.Table.meant self.old) budgets.steps budgets.moves) }
        ensures law { LawfulSolve (view G.Table.meant A.Table.meant self.old) budgets.steps budgets.moves result }
    {
        let job = read_job(&self.g, &self.a, &self.terms);
        let mut bests = self.bests(&job);
        let mut point: ArrayVec<i64, MOST_ROPES> = copied(&job.terms.l);
        let at = point.as_mut_slice();
        let exchanged = self.run_exchange(&job, &mut bests, at, budgets.steps);
        self.start_from(at);
        let walked = walk_down(&job, at, budgets.moves);
        self.offer_end(&job, &mut bests, at);
        Report {
            steps: exchanged.steps,
            exchange: exchanged.end,
            moves: walked.moves,
            walk: walked.end,
            smallest: exchanged.smallest,
        }
    }

    /// Solves with so many steps of the exchange, at most 1,000, and so many moves of the walk, at most 1,000,000.
    ///
    /// Each step's point and pair are offered. The walk starts at the held point, else at the last point found, else at the lower bounds, and its end
    /// is offered if it breaks no row. The report is the definition's to the last bit. It takes no memory, and a refused budget leaves the plan as it stood.
    pub fn solve(&mut self, steps: u64, moves: u64) -> Result<Report, Refusal>
        ensures answer { result ≡ unless (solve_refusal steps moves) (report (view G.Table.meant A.Table.meant self.old) steps moves) }
        ensures after { view G.Table.meant A.Table.meant self.new ≡ after (view G.Table.meant A.Table.meant self.old) (a_solve steps moves) }
        ensures law { IfOk result (LawfulSolve (view G.Table.meant A.Table.meant self.old) steps moves) }
    {
        let budgets = Budgets::checked(steps, moves)?;
        Ok(self.propose(budgets))
    }
}
