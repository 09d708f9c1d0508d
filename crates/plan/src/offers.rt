//! Offers: points, pairs and proofs of none.
ghost use Rattle.std.specs.Prelude.{◌≡◌, is_ok, Decides};
ghost use Rattle.calls.specs.States.{problem};
ghost use Rattle.calls.specs.Steps.{verdict as verdict_of, point_answer, pointed, pair_answer, paired, proof_answer, proven};
ghost use Rattle.calls.specs.Lawful.{LawfulPoint, LawfulPair, LawfulProof};
ghost use Rattle.plan.specs.View.{pair_of, view};

use crate::evaluates::copied;
use crate::judges::Judge;
use crate::state::{HeldPair, Plan};
use calls::Verdict;
use evaluate::Pair;
use opening::Refusal;
use reasons::check_proof;
use table::Table;

fn verdict(better: bool) -> Verdict
    ensures { result ≡ verdict_of better }
{
    if better {
        Verdict::Taken
    } else {
        Verdict::Kept
    }
}

impl<G: Table, A: Table> Plan<G, A> {
    fn judge_point(&self, z: &[i64]) -> Result<Verdict, Refusal>
        ensures { result ≡ point_answer (view G.Table.meant A.Table.meant self.now) z.now }
    {
        let judge = Judge {
            g: &self.g,
            a: &self.a,
            terms: &self.terms,
        };
        let better = judge.better_cost(self.held_cost(), z)?;
        Ok(verdict(better.is_some()))
    }

    /// Offers a point. It is taken if none is held or its cost is lower; else what is held is kept.
    ///
    /// It is refused exactly if it is not lawful: another length than there are ropes, a number beyond ±32,768, a bound or a row that it breaks.
    /// A refusal leaves the plan as it stood.
    pub fn point(&mut self, z: &[i64]) -> Result<Verdict, Refusal>
        ensures answer { result ≡ point_answer (view G.Table.meant A.Table.meant self.old) z.now }
        ensures after { view G.Table.meant A.Table.meant self.new ≡ pointed (view G.Table.meant A.Table.meant self.old) z.now }
        ensures lawful { Decides (is_ok result) (LawfulPoint (problem (view G.Table.meant A.Table.meant self.old)) z.now) }
    {
        let verdict = self.judge_point(z)?;
        if verdict == Verdict::Taken {
            self.point = Some(copied(z));
        }
        Ok(verdict)
    }

    fn judge_pair(&self, pair: Pair) -> Result<Verdict, Refusal>
        ensures { result ≡ pair_answer (view G.Table.meant A.Table.meant self.now) (pair_of pair.entry) }
    {
        let judge = Judge {
            g: &self.g,
            a: &self.a,
            terms: &self.terms,
        };
        let better = judge.better_floor(self.held_floor(), pair)?;
        Ok(verdict(better.is_some()))
    }

    /// Offers a pair: a point, which may break rows and bounds, and a multiplier in 256ths for each row. It is taken if its floor is higher.
    ///
    /// It is refused exactly if it is not lawful: a wrong length, the point's first, or a number beyond its limit, ±32,768 in the point and
    /// ±16,777,216 in the multipliers. A refusal leaves the plan as it stood.
    pub fn floor(&mut self, pair: Pair) -> Result<Verdict, Refusal>
        ensures answer { result ≡ pair_answer (view G.Table.meant A.Table.meant self.old) (pair_of pair.entry) }
        ensures after { view G.Table.meant A.Table.meant self.new
            ≡ paired (view G.Table.meant A.Table.meant self.old) (pair_of pair.entry) }
        ensures lawful { Decides (is_ok result) (LawfulPair (problem (view G.Table.meant A.Table.meant self.old))
            (pair_of pair.entry)) }
    {
        let verdict = self.judge_pair(pair)?;
        if verdict == Verdict::Taken {
            self.pair = HeldPair {
                point: copied(pair.point),
                multipliers: copied(pair.multipliers),
            };
        }
        Ok(verdict)
    }

    fn judge_proof(&self, y: &[i64]) -> Result<Verdict, Refusal>
        ensures { result ≡ proof_answer (view G.Table.meant A.Table.meant self.now) y.now }
    {
        check_proof(&self.a, &self.terms, y)?;
        Ok(verdict(self.proof.is_none()))
    }

    /// Offers multipliers, here plain whole numbers, as a proof that no point meets every row and bound. They are taken if none are held.
    ///
    /// They are refused exactly if they are not lawful: a wrong length, a number beyond ±16,777,216, or no proof. A refusal leaves the plan as it stood.
    pub fn proof(&mut self, y: &[i64]) -> Result<Verdict, Refusal>
        ensures answer { result ≡ proof_answer (view G.Table.meant A.Table.meant self.old) y.now }
        ensures after { view G.Table.meant A.Table.meant self.new ≡ proven (view G.Table.meant A.Table.meant self.old) y.now }
        ensures lawful { Decides (is_ok result) (LawfulProof (problem (view G.Table.meant A.Table.meant self.old)) y.now) }
    {
        let verdict = self.judge_proof(y)?;
        if verdict == Verdict::Taken {
            self.proof = Some(copied(y));
        }
        Ok(verdict)
    }
}
