ghost use Rattle.std.specs.Prelude.{◌≡◌, ◌+◌, ◌*◌, ◌<◌, Ok};
ghost use Rattle.section.specs.Sections.{spot_of};
ghost use Rattle.block.specs.declared.kind.Kind.TheVariants.{Curvature, Rows};
ghost use Rattle.card.specs.Faults.{n_of, m_of, card_check};
ghost use Rattle.card.specs.Grids.{size_at, curvature_grid, rows_grid, run_grid, grid_of, Holds};

use crate::card_table::CardTable;
use crate::run::Run;
use block::{Block, number_at};
use section::{Kind, first_of, spot_of};
use table::{SIZE_LIMIT, Table, cut_size, limit_number};

/// A size in the head, 0 where the bytes end before it.
fn size_at(card: &[u8], at: usize) -> i64
    ensures { result ≡ size_at card.now at }
{
    number_at(card, at).unwrap_or(0) as i64
}

impl<'a> CardTable<'a> {
    /// The table of section G. On a card that passes its check it has the section's numbers.
    pub fn curvature(card: &'a [u8]) -> CardTable<'a>
        ensures meant { grid_of result ≡ curvature_grid card.now }
        ensures holds { card_check card.now ≡ Ok tt → Holds card.now Curvature (n_of card.now) (curvature_grid card.now) }
    {
        let ropes = size_at(card, 4);
        CardTable {
            bytes: card,
            first: first_of(Kind::Curvature, cut_size(ropes) as u8, 0),
            rows: ropes,
            columns: ropes,
        }
    }

    /// The table of section A. On a card that passes its check it has the section's numbers.
    pub fn rows(card: &'a [u8]) -> CardTable<'a>
        ensures meant { grid_of result ≡ rows_grid card.now }
        ensures holds { card_check card.now ≡ Ok tt → Holds card.now Rows (m_of card.now) (rows_grid card.now) }
    {
        let ropes = size_at(card, 4);
        let rows = size_at(card, 8);
        CardTable {
            bytes: card,
            first: first_of(Kind::Rows, cut_size(ropes) as u8, cut_size(rows) as u8),
            rows,
            columns: ropes,
        }
    }
}

impl<'a> Table for Run<'a> {
    ghost meant = { λ r. run_grid r.bytes.now r.at r.count };

    fn height(&self) -> usize {
        1
    }

    fn width(&self) -> usize {
        self.count.min(SIZE_LIMIT)
    }

    fn place(&self, i: usize, j: usize) -> Option<i64> {
        if i >= 1 || j >= self.width() {
            return None;
        }
        let at = self.at.checked_add(j * 4)?;
        limit_number(number_at(self.bytes, at)? as i64)
    }
}

impl<'a> CardTable<'a> {
    /// The `count` numbers of the section from number `q` on, which one block has.
    fn run(&self, q: usize, count: usize) -> Run<'a>
        requires { q < 65536 }
        ensures value { (result.bytes.now ≡ self.now.bytes.now) × (result.at ≡ self.now.first * 512 + spot_of q) × (result.count ≡ count) }
    {
        Run {
            bytes: self.bytes,
            at: self.first as usize * Block::BYTES + spot_of(q as u16),
            count,
        }
    }
}

impl<'a> Table for CardTable<'a> {
    ghost meant = { grid_of };

    fn height(&self) -> usize {
        cut_size(self.rows)
    }

    fn width(&self) -> usize {
        cut_size(self.columns)
    }

    fn place(&self, i: usize, j: usize) -> Option<i64> {
        if i >= self.height() || j >= self.width() {
            return None;
        }
        let q = i * self.width() + j;
        let number = number_at(
            self.bytes,
            self.first as usize * Block::BYTES + spot_of(q as u16),
        )?;
        limit_number(number as i64)
    }

    /// Run by run: a row goes on in the next block at most once, and a run's numbers stand one behind the other.
    fn product(&self, i: usize, xs: &[i64]) -> Option<i64> {
        let columns = self.width();
        if i >= self.height() || xs.len() != columns {
            return None;
        }
        let q = i * columns;
        let here = columns.min(Block::NUMBERS - q % Block::NUMBERS);
        let first = self.run(q, here).product(0, &xs[..here])?;
        let second = self.run(q + here, columns - here).product(0, &xs[here..])?;
        Some(first + second)
    }
}
