//! A job read off a card.
ghost use Rattle.std.specs.Prelude.{◌≡◌, ◌≤◌};
ghost use Rattle.section.specs.Numbers.{numbers_in};
ghost use Rattle.card.specs.Faults.{n_of, m_of};
ghost use Rattle.card.specs.Held.{count_on};
ghost use Rattle.opening.specs.Opening.{numbers_of};
ghost use Rattle.sheet.specs.Laws.{SameAgain};
ghost use Rattle.sheet.specs.Reading.{job_of, lists_of, lists_on, read_answer, seen};

use crate::card_job::{CardJob, CardLists};
use arrayvec::ArrayVec;
use card::{CardTable, Kind, SoundCard, check_card};
use opening::{Lists, Refusal};

/// The numbers of a section, each read once; a section that is absent has none.
fn section_numbers<const N: usize>(card: &SoundCard, kind: Kind) -> ArrayVec<i64, N>
    requires { count_on card.now.bytes.now kind ≤ N }
    ensures { result.items ≡ numbers_in card.now.bytes.now (n_of card.now.bytes.now) (m_of card.now.bytes.now) kind }
{
    let mut numbers = ArrayVec::new();
    let Some(section) = card.section(kind) else {
        return numbers;
    };
    for q in 0..card.sizes().count(kind) {
        numbers.push(section.value(q).unwrap() as i64);
    }
    numbers
}

/// The lists of a card.
fn lists_of(card: &SoundCard) -> CardLists
    ensures { lists_of result ≡ lists_on card.now.bytes.now }
{
    CardLists {
        costs: section_numbers(card, Kind::Costs),
        bounds: section_numbers(card, Kind::Bounds),
        limits: section_numbers(card, Kind::Limits),
        slip: section_numbers(card, Kind::Slip),
    }
}

/// The tables and the lists of a card that passes its check, or the card's first fault.
///
/// Where they open, they make up the same card: whoever writes them again writes the same bytes.
pub fn read_card<'a>(card: &'a [u8]) -> Result<CardJob<'a>, Refusal>
    ensures answer { seen result ≡ read_answer card.now }
    ensures again { SameAgain card.now }
{
    let sound = check_card(card)?;
    Ok(CardJob {
        g: CardTable::curvature(card),
        a: CardTable::rows(card),
        lists: lists_of(&sound),
    })
}

impl CardJob<'_> {
    /// The six lists, lent.
    pub fn lists(&self) -> Lists<'_>
        ensures { numbers_of result ≡ (job_of self.now).x }
    {
        self.lists.lists()
    }
}

impl CardLists {
    fn lists(&self) -> Lists<'_>
        ensures { numbers_of result ≡ lists_of self.now }
    {
        let bounds = self.bounds.as_slice();
        let limits = self.limits.as_slice();
        let (l, u) = bounds.split_at(bounds.len() / 2);
        let (lo, hi) = limits.split_at(limits.len() / 2);
        Lists {
            c: self.costs.as_slice(),
            l,
            u,
            lo,
            hi,
            slip: self.slip.as_slice(),
        }
    }
}
