//! Offers of a solve, judged over the numbers that were read for it.
ghost use Rattle.std.specs.Prelude.{◌≡◌, true, length};
ghost use Rattle.duality.specs.Lists.{places};
ghost use Rattle.duality.specs.Problem.{cost as cost_of};
ghost use Rattle.duality.specs.Tests.{many_within};
ghost use Rattle.terms.specs.Numbers.{ropes_of, rows_of};
ghost use Rattle.job.specs.Numbers.{problem_of};
ghost use Rattle.job.specs.Rows.{judged};
ghost use Rattle.exchange.specs.Runs.{offers_of};
ghost use Rattle.calls.specs.States.{problem, floor_of};
ghost use Rattle.calls.specs.Refusing.{point_refusal, pair_refusal};
ghost use Rattle.calls.specs.Steps.{unless};
ghost use Rattle.calls.specs.Offers.{point as a_point, pair as a_pair, took, took_all};
ghost use Rattle.calls.specs.Solving.{found_offers, last_found, if_met};
ghost use Rattle.plan.specs.Bettering.{below, above};
ghost use Rattle.plan.specs.Solves.{ReadOf};
ghost use Rattle.plan.specs.Standing.{Stands};
ghost use Rattle.plan.specs.View.{pair_of, view};

use crate::bests::Bests;
use crate::evaluates::copied;
use crate::judges::Judge;
use crate::state::{HeldPair, Plan};
use evaluate::Pair;
use exchange::Step;
use job::Job;
use opening::Refusal;
use reading::{curvature, rows};
use table::Table;

impl<G: Table, A: Table> Plan<G, A> {
    /// The cost of a point that fits, by the numbers that were read.
    fn read_cost(&self, job: &Job, z: &[i64]) -> i64
        requires same { ReadOf (view G.Table.meant A.Table.meant self.now) job.now }
        requires near { many_within (ropes_of self.now.terms) 32768 z.now ≡ true }
        ensures { result ≡ cost_of (problem (view G.Table.meant A.Table.meant self.now)) (places z.now) }
    {
        let judge = Judge {
            g: &curvature(job),
            a: &rows(job),
            terms: &job.terms,
        };
        judge.cost(z)
    }

    /// The floor of a pair that fits, by the numbers that were read.
    fn read_floor(&self, job: &Job, pair: Pair) -> i128
        requires same { ReadOf (view G.Table.meant A.Table.meant self.now) job.now }
        requires point { many_within (ropes_of self.now.terms) 32768 pair.point.now ≡ true }
        requires multipliers { many_within (rows_of self.now.terms) 16777216 pair.multipliers.now ≡ true }
        ensures { result ≡ floor_of (problem (view G.Table.meant A.Table.meant self.now)) (pair_of pair.entry) }
    {
        let judge = Judge {
            g: &curvature(job),
            a: &rows(job),
            terms: &job.terms,
        };
        judge.floor(pair)
    }

    /// What stands to be bettered. The numbers that were read tell it, so that no table is asked again.
    pub(crate) fn bests(&self, job: &Job) -> Bests
        requires { ReadOf (view G.Table.meant A.Table.meant self.now) job.now }
        ensures { Stands (view G.Table.meant A.Table.meant self.now) result }
    {
        Bests {
            cost: match &self.point {
                Some(z) => Some(self.read_cost(job, z)),
                None => None,
            },
            floor: self.read_floor(
                job,
                Pair {
                    point: &self.pair.point,
                    multipliers: &self.pair.multipliers,
                },
            ),
        }
    }

    /// The cost of a point, if it is below that of the held one.
    fn better_cost(&self, job: &Job, held: Option<i64>, z: &[i64]) -> Result<Option<i64>, Refusal>
        requires { ReadOf (view G.Table.meant A.Table.meant self.now) job.now }
        ensures { result ≡ unless (point_refusal (problem (view G.Table.meant A.Table.meant self.now)) z.now)
            (below held (cost_of (problem (view G.Table.meant A.Table.meant self.now)) (places z.now))) }
    {
        let judge = Judge {
            g: &curvature(job),
            a: &rows(job),
            terms: &job.terms,
        };
        judge.better_cost(held, z)
    }

    /// The floor of a pair, if it is above that of the held one.
    fn better_floor(&self, job: &Job, held: i128, pair: Pair) -> Result<Option<i128>, Refusal>
        requires { ReadOf (view G.Table.meant A.Table.meant self.now) job.now }
        ensures { result ≡ unless (pair_refusal (problem (view G.Table.meant A.Table.meant self.now)) (pair_of pair.entry))
            (above held (floor_of (problem (view G.Table.meant A.Table.meant self.now)) (pair_of pair.entry))) }
    {
        let judge = Judge {
            g: &curvature(job),
            a: &rows(job),
            terms: &job.terms,
        };
        judge.better_floor(held, pair)
    }

    /// Offers a point.
    fn offer_point(&mut self, job: &Job, bests: &mut Bests, z: &[i64])
        requires same { ReadOf (view G.Table.meant A.Table.meant self.old) job.now }
        requires stands { Stands (view G.Table.meant A.Table.meant self.old) bests.old }
        ensures after { view G.Table.meant A.Table.meant self.new ≡ took (view G.Table.meant A.Table.meant self.old) (a_point z.now) }
        ensures stands { Stands (view G.Table.meant A.Table.meant self.new) bests.new }
    {
        if let Ok(Some(cost)) = self.better_cost(job, bests.cost, z) {
            self.point = Some(copied(z));
            bests.cost = Some(cost);
        }
    }

    /// Offers a pair.
    fn offer_pair(&mut self, job: &Job, bests: &mut Bests, pair: Pair)
        requires same { ReadOf (view G.Table.meant A.Table.meant self.old) job.now }
        requires stands { Stands (view G.Table.meant A.Table.meant self.old) bests.old }
        ensures after { view G.Table.meant A.Table.meant self.new ≡ took (view G.Table.meant A.Table.meant self.old) (a_pair (pair_of pair.entry)) }
        ensures stands { Stands (view G.Table.meant A.Table.meant self.new) bests.new }
    {
        if let Ok(Some(floor)) = self.better_floor(job, bests.floor, pair) {
            self.pair = HeldPair {
                point: copied(pair.point),
                multipliers: copied(pair.multipliers),
            };
            bests.floor = floor;
        }
    }

    /// Offers what a step found, first its point, then the pair, and leaves the point in the list.
    pub(crate) fn offer_step(&mut self, job: &Job, bests: &mut Bests, step: Step, at: &mut [i64])
        requires same { ReadOf (view G.Table.meant A.Table.meant self.old) job.now }
        requires stands { Stands (view G.Table.meant A.Table.meant self.old) bests.old }
        requires long { length at.old ≡ ropes_of job.now.terms }
        ensures after { view G.Table.meant A.Table.meant self.new
            ≡ took_all (view G.Table.meant A.Table.meant self.old) (found_offers (view G.Table.meant A.Table.meant self.old).numbers (offers_of step)) }
        ensures stands { Stands (view G.Table.meant A.Table.meant self.new) bests.new }
        ensures last { at.new ≡ last_found (view G.Table.meant A.Table.meant self.old).numbers at.old (offers_of step) }
    {
        if let Step::Found(offer, _) = step {
            at.copy_from_slice(&offer.point[..job.ropes()]);
            self.offer_point(job, bests, at);
            self.offer_pair(
                job,
                bests,
                Pair {
                    point: at,
                    multipliers: &offer.multipliers[..job.rows()],
                },
            );
        }
    }

    /// Offers the end of a walk, if it breaks no row.
    pub(crate) fn offer_end(&mut self, job: &Job, bests: &mut Bests, at: &[i64])
        requires same { ReadOf (view G.Table.meant A.Table.meant self.old) job.now }
        requires stands { Stands (view G.Table.meant A.Table.meant self.old) bests.old }
        requires near { many_within (ropes_of job.now.terms) 1073741824 at.now ≡ true }
        ensures { view G.Table.meant A.Table.meant self.new
            ≡ took_all (view G.Table.meant A.Table.meant self.old) (if_met (judged (problem_of job.now) (places at.now)) at.now) }
    {
        if job.judge(at).is_ok() {
            self.offer_point(job, bests, at);
        }
    }
}
