//! Columns cleared from the left.
ghost use Rattle.std.specs.Prelude.{◌≡◌, ℕ, ◌<◌, ◌≤◌, ◌+◌, map, length, MatchOption};
ghost use Rattle.std.specs.Option.{is_some};
ghost use Rattle.elimination.specs.Lines.{less, cleared, cleared_below, column_tried, triangle_of};
ghost use Rattle.elimination.specs.Runs.{Takes, HasNone, ClearedBy, Clears, Triangular};

use crate::pivots::pivot_in_column;
use crate::squares::LINE_PLACES;

/// Brings the lines to the upper triangle, or answers nothing at a column that has no pivot; either way the smallest size of a pivot is noted.
pub(crate) fn eliminate(lines: &mut [[f64; LINE_PLACES]], smallest: &mut f64) -> Option<()>
    requires { length lines.old ≤ 32 }
    ensures whole { is_some result ≡ (triangle_of smallest.old lines.old).whole }
    ensures smallest { smallest.new ≡ (triangle_of smallest.old lines.old).least }
    ensures lines { lines.new ≡ (triangle_of smallest.old lines.old).lines }
    ensures law { Triangular smallest.old lines.old lines.new smallest.new (is_some result) }
{
    for k in 0..lines.len() {
        let size = eliminate_column(lines, k)?;
        if size < *smallest {
            *smallest = size;
        }
    }
    Some(())
}

/// The size of column k's pivot, once the column is cleared below it. Where no pivot can be taken the lines stay.
fn eliminate_column(lines: &mut [[f64; LINE_PLACES]], k: usize) -> Option<f64>
    requires column { k < length lines.old }
    requires few { length lines.old ≤ 32 }
    ensures value { (result, lines.new) ≡ column_tried (length lines.old + 1) k lines.old }
    ensures law { MatchOption result (HasNone lines.old k)
        (λ s. (p : ℕ) × (Takes lines.old k (record { place = p; size = s }) × Clears (length lines.old + 1) k p lines.old lines.new)) }
{
    let pivot = pivot_in_column(lines, k);
    if !pivot.can_be_taken() {
        return None;
    }
    lines.swap(k, pivot.place);
    clear_below(lines, k);
    Some(pivot.size)
}

fn clear_below(lines: &mut [[f64; LINE_PLACES]], k: usize)
    requires column { k < length lines.old }
    requires few { length lines.old ≤ 32 }
    ensures { lines.new ≡ cleared_below (length lines.old + 1) k lines.old }
{
    let size = lines.len();
    let (above, below) = lines.split_at_mut(k + 1);
    clear_lines(below, k, &above[k][..=size]);
}

/// Clears column k of each line, as far as the pivot's line goes.
fn clear_lines(lines: &mut [[f64; LINE_PLACES]], k: usize, pivot_line: &[f64])
    requires column { k < length pivot_line.now }
    requires width { length pivot_line.now ≤ 33 }
    ensures { lines.new ≡ map (cleared k pivot_line.now) lines.old }
{
    for line in lines.iter_mut() {
        clear_entry(&mut line[..], k, pivot_line);
    }
}

fn clear_entry(line: &mut [f64], k: usize, pivot_line: &[f64])
    requires column { k < length pivot_line.now }
    requires width { length pivot_line.now ≤ length line.old }
    ensures value { line.new ≡ cleared k pivot_line.now line.old }
    ensures law { ClearedBy (length pivot_line.now) k pivot_line.now line.old line.new }
{
    let f = line[k] / pivot_line[k];
    subtract_multiple(&mut line[k + 1..pivot_line.len()], f, &pivot_line[k + 1..]);
}

fn subtract_multiple(line: &mut [f64], f: f64, pivot_line: &[f64])
    requires { length line.old ≡ length pivot_line.now }
    ensures { line.new ≡ less f line.old pivot_line.now }
{
    // Counted and not zipped, because after a zip of `iter_mut` a proof knows no element.
    for (i, x) in line.iter_mut().enumerate() {
        *x -= f * pivot_line[i];
    }
}
