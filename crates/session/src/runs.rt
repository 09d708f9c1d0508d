//! Calls made in turn.
ghost use Rattle.std.specs.Prelude.{◌≡◌, map};
ghost use Rattle.calls.specs.Histories.{after};
ghost use Rattle.calls.specs.Runs.{replies, after_all, RunLaw, LeavesAfter};
ghost use Rattle.calls.specs.Fairness.{FairRunLaw, LeavesFair};
ghost use Rattle.plan.specs.View.{view};
ghost use Rattle.session.specs.Said.{asked_of, told};
ghost use Rattle.session.specs.Answering.{filled, answered};

use crate::asks::{Answer, Asked, Call};
use plan::Plan;
use table::Table;

/// Makes the call of a slot, and writes the answer beside it.
fn answer<G: Table, A: Table>(plan: &mut Plan<G, A>, slot: &mut Asked)
    ensures answer { slot.new ≡ filled (view G.Table.meant A.Table.meant plan.old) slot.old }
    ensures after { view G.Table.meant A.Table.meant plan.new ≡ after (view G.Table.meant A.Table.meant plan.old) (asked_of slot.old) }
{
    let answer = match &mut slot.call {
        Call::Point(z) => Answer::Judged(plan.point(z)),
        Call::Floor(pair) => Answer::Judged(plan.floor(*pair)),
        Call::Proof(y) => Answer::Judged(plan.proof(y)),
        Call::Amend(amendment) => Answer::Amended(plan.amend(*amendment)),
        Call::Solve { steps, moves } => Answer::Solved(plan.solve(*steps, *moves)),
        Call::Show(out) => Answer::Shown(plan.show(out)),
    };
    slot.answer = Some(answer);
}

/// Makes the calls in turn, and answers each in its slot. A call that is refused is answered like any other, and the run goes on.
///
/// Answers and plan are, call by call, those of the definitions. Whatever opening and whatever calls led to the plan, what each show of the run tells
/// is honest about the numbers in force by then and the offers made since the last amendment, those of earlier runs among them.
/// A fair plan, as every newly opened one is, stays fair, and what each show of the run tells is honest in the same way, counted from there.
pub fn run<G: Table, A: Table>(plan: &mut Plan<G, A>, asked: &mut [Asked])
    ensures answers { asked.new ≡ answered (view G.Table.meant A.Table.meant plan.old) asked.old }
    ensures told { told asked.new ≡ replies (view G.Table.meant A.Table.meant plan.old) (map asked_of asked.old) }
    ensures after { view G.Table.meant A.Table.meant plan.new ≡ after_all (view G.Table.meant A.Table.meant plan.old) (map asked_of asked.old) }
    ensures law { RunLaw (view G.Table.meant A.Table.meant plan.old) (map asked_of asked.old) (told asked.new) }
    ensures left { LeavesAfter (view G.Table.meant A.Table.meant plan.old) (map asked_of asked.old) (view G.Table.meant A.Table.meant plan.new) }
    ensures fair { LeavesFair (view G.Table.meant A.Table.meant plan.old) (view G.Table.meant A.Table.meant plan.new) }
    ensures fair_law { FairRunLaw (view G.Table.meant A.Table.meant plan.old) (map asked_of asked.old) (told asked.new) }
{
    for slot in asked {
        answer(plan, slot);
    }
}
