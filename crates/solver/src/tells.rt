//! What a program says of a card, whatever becomes of it.
ghost use Rattle.std.specs.Prelude.{◌≡◌, ◌≤◌, length, take, true, false};
ghost use Rattle.elimination.specs.Lines.{none};
ghost use Rattle.print.specs.Printing.{refused_text};
ghost use Rattle.solver.specs.Honest.{HonestSheet};
ghost use Rattle.solver.specs.Outcomes.{written};
ghost use Rattle.solver.specs.Telling.{tell_answer, tell_after};

use crate::solve_card;
use crate::told::Told;
use lines::ROOM;
use opening::Refusal;
use print::print_refusal;

fn unsolved(bytes: usize) -> Told
    ensures { result ≡ record { bytes = bytes; smallest = none; solved = false } }
{
    Told {
        bytes,
        smallest: 0.0,
        solved: false,
    }
}

/// Writes why a card is refused.
fn refuse(refusal: &Refusal, out: &mut [u8]) -> Told
    requires { 320 ≤ length out.old }
    ensures list { out.new ≡ written (refused_text refusal.now) out.old }
    ensures answer { result
        ≡ record { bytes = length (refused_text refusal.now); smallest = none; solved = false } }
{
    unsolved(print_refusal(refusal, out).unwrap_or(0))
}

/// Solves the job of a card with at most 1,000 steps and 100,000 moves, and writes at the start of a list what the plan shows then, or the card's
/// refusal as one line. What the sheet tells is honest about the problem that the card states.
///
/// The bytes past the text stay. A list of fewer than 320 bytes stays as it stood, nothing is solved, and the text has no bytes.
pub fn tell_card(card: &[u8], out: &mut [u8]) -> Told
    ensures answer { result ≡ tell_answer card.now out.old }
    ensures after { out.new ≡ tell_after card.now out.old }
    ensures fits { result.bytes ≤ length out.old }
    ensures law { result.solved ≡ true → HonestSheet card.now (take result.bytes out.new) }
{
    if out.len() < ROOM {
        return unsolved(0);
    }
    match solve_card(card, out) {
        Ok(solved) => Told {
            bytes: solved.bytes,
            smallest: solved.smallest,
            solved: true,
        },
        Err(refusal) => refuse(&refusal, out),
    }
}
