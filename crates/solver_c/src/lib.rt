//! One function for programs in C and in Rust: solves the job of a card, and writes what its plan shows then, or why the card is refused.
//!
//! It takes no memory: of C's functions the library calls only those that copy and fill.
#![tactic(auto)]

ghost use Rattle.std.specs.Prelude.{◌≡◌, ◌≤◌, length, take, true};
ghost use Rattle.solver.specs.Honest.{HonestSheet};
ghost use Rattle.solver.specs.Telling.{tell_answer, tell_after};
ghost use Rattle.solver_c.specs.Answers.{answer_of};

use solver::tell_card;
use wire::bits;

/// What became of a card.
#[repr(C)]
#[derive(Clone, Copy)]
pub struct Answer {
    /// How many bytes the text has. No text is empty: 0 says that the list has no room.
    pub bytes: usize,
    /// The 64 bits of the smallest pivot, 0 if none was taken.
    pub pivot: u64,
    /// Whether the job was solved: the text is a sheet, and no refusal.
    pub solved: bool,
}

/// Solves the job of a card with at most 1,000 steps and 100,000 moves, and writes at the start of a list what the plan shows then, or the card's
/// refusal. What the sheet tells is honest about the problem that the card states. The bytes past the text stay. A list of fewer than 320 bytes stays
/// as it stood, and nothing is solved.
///
/// To C the function is
///
/// ```c
/// struct answer { size_t bytes; uint64_t pivot; bool solved; };
/// struct answer solver_c_solve_card(const uint8_t *card, size_t length, uint8_t *out, size_t room);
/// ```
///
/// The two lists lie apart, neither pointer is null, and nothing else reads or writes them during the call.
#[unsafe(no_mangle)]
pub extern "C" fn solver_c_solve_card(card: &[u8], out: &mut [u8]) -> Answer
    ensures answer { result ≡ answer_of (tell_answer card.now out.old) }
    ensures after { out.new ≡ tell_after card.now out.old }
    ensures fits { result.bytes ≤ length out.old }
    ensures law { result.solved ≡ true → HonestSheet card.now (take result.bytes out.new) }
{
    let told = tell_card(card, out);
    Answer {
        bytes: told.bytes,
        pivot: bits(told.smallest),
        solved: told.solved,
    }
}
