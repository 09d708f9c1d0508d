//! From a card to the sheet of its job, solved: what programs and the static library share.
#![tactic(auto)]

ghost use Rattle.std.specs.Prelude.{◌≡◌, ◌≤◌, length, take, IfOk};
ghost use Rattle.solver.specs.Honest.{HonestSheet};
ghost use Rattle.solver.specs.Outcomes.{solve_answer, solve_after};

mod solved;
mod tells;
mod told;

use opening::Refusal;
use print::print_plan;
use sheet::load;
pub use solved::Solved;
pub use tells::tell_card;
pub use told::Told;

/// Steps of the exchange.
const STEPS: u64 = 1_000;

/// Moves of the walk.
const MOVES: u64 = 100_000;

/// Solves the job of a card with at most 1,000 steps and 100,000 moves, and writes at the start of a list what its plan shows then.
///
/// What the text tells is honest about the problem that the card states: the point meets every row and bound, its cost and its gap are those told, no point in
/// whole ticks that meets them has 256 times its cost below the floor, and none exists where that is said.
///
/// The bytes past the text stay. A refusal, by loading or for a list of fewer than 320 bytes, leaves the list as it stood. It takes no memory.
pub fn solve_card(card: &[u8], out: &mut [u8]) -> Result<Solved, Refusal>
    ensures answer { result ≡ solve_answer card.now (length out.old) }
    ensures after { out.new ≡ solve_after card.now out.old }
    ensures fits { IfOk result (λ s. s.bytes ≤ length out.old) }
    ensures law { IfOk result (λ s. HonestSheet card.now (take s.bytes out.new)) }
{
    let mut plan = load(card)?;
    let report = plan.solve(STEPS, MOVES)?;
    let bytes = print_plan(&plan, &report, out)?;
    Ok(Solved {
        bytes,
        smallest: report.smallest,
    })
}
