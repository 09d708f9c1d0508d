//! A card loaded as a plan.
ghost use Rattle.std.specs.Prelude.{◌≡◌, IfOk};
ghost use Rattle.card.specs.Grids.{grid_of, curvature_grid, rows_grid};
ghost use Rattle.calls.specs.Opened.{Sound, viewed};
ghost use Rattle.plan.specs.View.{view};
ghost use Rattle.sheet.specs.Laws.{SameAgain};
ghost use Rattle.sheet.specs.Loading.{load_answer};
ghost use Rattle.sheet.specs.Reading.{lists_on};

use crate::reads::read_card;
use card::CardTable;
use opening::Refusal;
use plan::Plan;

/// Opens a plan from a card, whose tables are read in place, or refuses: with the card's first fault, or with what opening refuses.
///
/// A card that opens is, written again, the same bytes.
pub fn load<'a>(card: &'a [u8]) -> Result<Plan<CardTable<'a>, CardTable<'a>>, Refusal>
    ensures answer { viewed (view grid_of grid_of) result ≡ load_answer card.now }
    ensures sound { IfOk result (λ p. Sound (curvature_grid card.now) (rows_grid card.now) (lists_on card.now) (view grid_of grid_of p)) }
    ensures again { SameAgain card.now }
{
    let job = read_card(card)?;
    Plan::open(job.g, job.a, &job.lists())
}
