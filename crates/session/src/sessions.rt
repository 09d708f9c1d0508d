//! A plan opened, and a run of calls on it.
ghost use Rattle.std.specs.Prelude.{◌≡◌, map, IfOk};
ghost use Rattle.opening.specs.Opening.{numbers_of};
ghost use Rattle.session.specs.Said.{asked_of, told};
ghost use Rattle.session.specs.Answering.{session_answer, session_slots, HonestSession};

use crate::asks::Asked;
use crate::runs::run;
use opening::{Lists, Refusal};
use plan::Plan;
use table::Table;

/// Opens a plan over two tables and six lists, and makes the calls on it in turn: whatever is offered, amended and asked, by whomever, every show tells the truth.
///
/// Where opening finds a fault, its first one is named, and the slots stay. Else each slot has an answer, the one that the definitions give.
/// The law has no premise. Of each show that is not refused, under the numbers in force by then:
///
/// - A point that is shown meets every row and every bound. Its cost is told, and the gap is 256 times the cost minus the floor.
/// - No point in whole ticks that meets them, however large, has 256 times its cost below the floor: none saves more than a 256th of the gap.
/// - That none exists is said only where none does, and always once a lawful proof of it was offered.
/// - No lawful offer is lost: a point is shown that costs no more than any that was offered, and the floor is no lower than that of any pair.
///
/// Offers count since the last amendment that was not refused, those of a solve among them.
pub fn session<G: Table + Drop, A: Table + Drop>(
    g: G,
    a: A,
    lists: &Lists,
    asked: &mut [Asked],
) -> Result<(), Refusal>
    ensures answer { result ≡ session_answer (G.Table.meant g) (A.Table.meant a) (numbers_of lists.now) }
    ensures slots { asked.new ≡ session_slots (G.Table.meant g) (A.Table.meant a) (numbers_of lists.now) asked.old }
    ensures law { IfOk result (λ _. HonestSession (G.Table.meant g) (A.Table.meant a) (numbers_of lists.now) (map asked_of asked.old) (told asked.new)) }
{
    let mut plan = Plan::open(g, a, lists)?;
    run(&mut plan, asked);
    Ok(())
}
