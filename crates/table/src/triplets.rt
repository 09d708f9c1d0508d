//! A table by a list of records.
ghost use Rattle.std.specs.Prelude.{◌≡◌, ℕ, ◌<◌};
ghost use Rattle.duality.specs.Lists.{places};
ghost use Rattle.table.specs.RecordLaws.{Told};
ghost use Rattle.table.specs.Records.{is_for, is_index, recorded, triplet_grid, Written};

use crate::interface::Table;
use crate::limits::{SIZE_LIMIT, cut_size, limit_number};
use crate::line::Line;

/// A number and the place that it is for.
#[derive(Clone, Copy, PartialEq, Eq, Debug)]
pub struct Record {
    pub row: i64,
    pub column: i64,
    pub number: i64,
}

/// A table by its sizes and a list of records. The first record for a place counts, and a place without one is 0.
#[derive(Clone, Copy, PartialEq, Eq, Debug)]
pub struct Triplets<'a> {
    pub height: i64,
    pub width: i64,
    pub records: &'a [Record],
}

/// Whether a row or a column as it was given is the index `k`; one below 0 is none.
fn is_index(z: i64, k: usize) -> bool
    ensures { result ≡ is_index z k }
{
    // Not by try_from: this is asked of each record, and a record that is not for the place has to cost little.
    z >= 0 && z as usize == k
}

impl Record {
    /// A number for the place in this row and column.
    pub fn new(row: i64, column: i64, number: i64) -> Record
        ensures { result ≡ record { row = row; column = column; number = number } }
    {
        Record {
            row,
            column,
            number,
        }
    }

    /// Whether the record is for the place in row `i` and column `j`.
    fn is_for(&self, i: usize, j: usize) -> bool
        ensures { result ≡ is_for self.now i j }
    {
        is_index(self.row, i) && is_index(self.column, j)
    }

    /// Puts the number at its column, if the record is for row `i`.
    fn put_into(&self, row: &mut [i64], i: usize)
        ensures { Written row.old self.now i row.new }
    {
        // The row first, since most records are for another one.
        if !is_index(self.row, i) || self.column < 0 {
            return;
        }
        let j = self.column as usize;
        if j < row.len() {
            row[j] = self.number;
        }
    }
}

/// The number of the first record for the place in row `i` and column `j`, or 0.
fn first_number(records: &[Record], i: usize, j: usize) -> i64
    ensures { result ≡ recorded records.now i j }
{
    records
        .iter()
        .find(|record| record.is_for(i, j))
        .map_or(0, |record| record.number)
}

/// The numbers in row `i`, in one pass: from the last record to the first, so that the first for a place stays.
fn row_numbers(records: &[Record], i: usize) -> [i64; SIZE_LIMIT]
    ensures { (j : ℕ) → j < 64 → places result j ≡ recorded records.now i j }
{
    let mut row = [0; SIZE_LIMIT];
    for record in records.iter().rev() {
        record.put_into(&mut row, i);
    }
    row
}

impl<'a> Triplets<'a> {
    /// The table of these sizes and records. A size is cut to 0 to 64, and a record that names no place of the table is passed over.
    /// A number beyond ±1,048,576 makes its place a blank.
    pub fn new(height: i64, width: i64, records: &'a [Record]) -> Triplets<'a>
        ensures holds { (result.height ≡ height) × ((result.width ≡ width) × (result.records.now ≡ records.now)) }
        ensures told { Told height width records.now (triplet_grid result.height result.width result.records.now) }
    {
        Triplets {
            height,
            width,
            records,
        }
    }
}

impl<'a> Table for Triplets<'a> {
    ghost meant = { λ t. triplet_grid t.height t.width t.records.now };

    fn height(&self) -> usize {
        cut_size(self.height)
    }

    fn width(&self) -> usize {
        cut_size(self.width)
    }

    fn place(&self, i: usize, j: usize) -> Option<i64> {
        if i >= self.height() || j >= self.width() {
            return None;
        }
        limit_number(first_number(self.records, i, j))
    }

    /// By one pass along the records, and not one for each place.
    fn product(&self, i: usize, xs: &[i64]) -> Option<i64> {
        if i >= self.height() {
            return None;
        }
        let row = row_numbers(self.records, i);
        let line = Line {
            numbers: &row[0..self.width()],
        };
        line.product(0, xs)
    }
}
