//! A plan as a sheet of text.
ghost use Rattle.std.specs.Prelude.{◌≡◌, ◌≤◌, length, IfOk, Ok};
ghost use Rattle.calls.specs.Honesty.{ShowLaw};
ghost use Rattle.calls.specs.Fairness.{FairShowLaw};
ghost use Rattle.calls.specs.Steps.{shown};
ghost use Rattle.plan.specs.View.{view};
ghost use Rattle.print.specs.Printing.{point_of, plan_text, print_answer, print_after};

use lines::{ROOM, write_sheet};
use opening::Refusal;
use plan::{Plan, Report};
use table::Table;
use terms::MOST_ROPES;

/// Writes what a solve did and what the plan shows at the start of a list, and answers how many bytes that has. The bytes past it stay.
/// Refuses a list of fewer than 320 bytes, which stays as it stood.
///
/// What is printed is what `show` answers: whatever opening and whatever calls led here, it is true of the numbers in force, and no lawful offer was lost.
/// So it is whatever calls led here from a fair start.
pub fn print_plan<G: Table, A: Table>(
    plan: &Plan<G, A>,
    report: &Report,
    out: &mut [u8],
) -> Result<usize, Refusal>
    ensures answer { result ≡ print_answer (plan_text report.now (view G.Table.meant A.Table.meant plan.now)) out.old }
    ensures after { out.new ≡ print_after (plan_text report.now (view G.Table.meant A.Table.meant plan.now)) out.old }
    ensures fits { IfOk result (λ n. n ≤ length out.old) }
    ensures law { ShowLaw (view G.Table.meant A.Table.meant plan.now)
        (Ok (shown (view G.Table.meant A.Table.meant plan.now)))
        (point_of (view G.Table.meant A.Table.meant plan.now)) }
    ensures fair_law { FairShowLaw (view G.Table.meant A.Table.meant plan.now)
        (Ok (shown (view G.Table.meant A.Table.meant plan.now)))
        (point_of (view G.Table.meant A.Table.meant plan.now)) }
{
    let mut zeros = [0i64; MOST_ROPES];
    let list = &mut zeros[..plan.ropes()];
    let seen = plan.show(list)?;
    write_sheet(out, report, &seen, list).map_err(|_| Refusal::OfferLength { needed: ROOM })
}
