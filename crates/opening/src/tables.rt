//! Checks of the tables: sizes, places, symmetry.
ghost use Rattle.std.specs.Prelude.{◌≡◌};
ghost use Rattle.table.specs.Grid.{height_of, matrix_of, width_of};
ghost use Rattle.opening.specs.declared.refusal.Refusal.TheVariants.{Sizes};
ghost use Rattle.opening.specs.Firsts.{unless};
ghost use Rattle.opening.specs.Opening.{is_square, is_lined, sizes_fault, places_fault, symmetry_fault, tables_fault};

use crate::refusal::Refusal;
use table::Table;
use terms::{MOST_ROPES, MOST_ROWS, within};

const CURVATURE_LIMIT: u64 = 4_096;

const ROW_NUMBER_LIMIT: u64 = 1_024;

fn is_square<G: Table>(g: &G) -> bool
    ensures { result ≡ is_square (G.Table.meant g.now) }
{
    let n = g.height();
    0 < n && n <= MOST_ROPES && g.width() == n
}

fn is_lined<A: Table>(n: usize, a: &A) -> bool
    ensures { result ≡ is_lined n (A.Table.meant a.now) }
{
    let m = a.height();
    m <= MOST_ROWS && (m == 0 || a.width() == n)
}

fn sizes_of<T: Table>(t: &T) -> Refusal
    ensures { result ≡ Sizes (height_of (T.Table.meant t.now)) (width_of (T.Table.meant t.now)) }
{
    Refusal::Sizes {
        height: t.height(),
        width: t.width(),
    }
}

/// G before A.
pub(crate) fn check_sizes<G: Table, A: Table>(g: &G, a: &A) -> Result<(), Refusal>
    ensures { result ≡ unless (sizes_fault (G.Table.meant g.now) (A.Table.meant a.now)) tt }
{
    if !is_square(g) {
        return Err(sizes_of(g));
    }
    if !is_lined(g.height(), a) {
        return Err(sizes_of(a));
    }
    Ok(())
}

fn check_places<T: Table>(limit: u64, t: &T) -> Result<(), Refusal>
    ensures { result ≡ unless (places_fault limit (T.Table.meant t.now)) tt }
{
    for row in 0..t.height() {
        for column in 0..t.width() {
            if !t.place(row, column).is_some_and(|x| within(limit, x)) {
                return Err(Refusal::Place { row, column });
            }
        }
    }
    Ok(())
}

/// The number at a place, 0 at a blank.
pub(crate) fn number_at<T: Table>(t: &T, i: usize, j: usize) -> i64
    ensures { result ≡ matrix_of (T.Table.meant t.now) i j }
{
    t.place(i, j).unwrap_or(0)
}

fn check_symmetry<G: Table>(g: &G) -> Result<(), Refusal>
    ensures { result ≡ unless (symmetry_fault (G.Table.meant g.now)) tt }
{
    for row in 0..g.height() {
        for column in 0..g.width() {
            if number_at(g, row, column) != number_at(g, column, row) {
                return Err(Refusal::Asymmetric { row, column });
            }
        }
    }
    Ok(())
}

/// Places of G, places of A, symmetry of G.
pub(crate) fn check_tables<G: Table, A: Table>(g: &G, a: &A) -> Result<(), Refusal>
    ensures { result ≡ unless (tables_fault (G.Table.meant g.now) (A.Table.meant a.now)) tt }
{
    check_places(CURVATURE_LIMIT, g)?;
    check_places(ROW_NUMBER_LIMIT, a)?;
    check_symmetry(g)
}
