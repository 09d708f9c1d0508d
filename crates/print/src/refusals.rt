//! A refusal as a line of text.
ghost use Rattle.std.specs.Prelude.{◌≡◌, ◌≤◌, length, IfOk};
ghost use Rattle.print.specs.Printing.{refused_text, print_answer, print_after};

use lines::{ROOM, write_refusal};
use opening::Refusal;

/// Writes a refusal's number and first place at the start of a list, as one line, and answers how many bytes it has. The bytes past it stay.
/// Refuses a list of fewer than 320 bytes, which stays as it stood.
pub fn print_refusal(refusal: &Refusal, out: &mut [u8]) -> Result<usize, Refusal>
    ensures answer { result ≡ print_answer (refused_text refusal.now) out.old }
    ensures after { out.new ≡ print_after (refused_text refusal.now) out.old }
    ensures fits { IfOk result (λ n. n ≤ length out.old) }
{
    let notice = refusal.notice();
    write_refusal(out, notice.number, notice.first).map_err(|_| Refusal::OfferLength {
        needed: ROOM,
    })
}
